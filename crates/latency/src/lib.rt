// The largest decoding window that a latency budget allows: dw_max_size of RFC 8681, appendix C.1 (document 02, No. 3).
#![tactic(auto)]

ghost use Rattle.std.specs.Prelude.{◌≡◌, ◌%◌, ◌/◌};
ghost use Rattle.latency.specs.Window.{dividend, divisor, allowed};
ghost use Rattle.latency.specs.Inner.{Bounds};
ghost use Rattle.latency.specs.Promises.{WindowAnswered};

use wire::{Refusal, between};

// Whether all three values are allowed.
fn are_allowed(budget: u64, bitrate: u64, size: usize) -> bool
    ensures { result ≡ allowed budget bitrate size }
{
    between(1, 10000000, budget as usize)
        && between(1, 10000000000, bitrate as usize)
        && between(4, 1500, size)
}

// The division of allowed values.
fn divide(budget: u64, bitrate: u64, size: usize) -> (u64, u64)
    requires { Bounds budget bitrate size }
    ensures { result ≡ (dividend budget bitrate / divisor size, dividend budget bitrate % divisor size) }
{
    let dividend = budget * bitrate;
    let divisor = 8 * size as u64 * 1000000;
    (dividend / divisor, dividend % divisor)
}

// How many times the bits of a symbol of `size` bytes come in within a budget in microseconds at a bitrate in bits per second, and what is left over, in
// millionths of a bit.
pub fn dw_max_size(budget: u64, bitrate: u64, size: usize) -> Result<(u64, u64), Refusal>
    ensures { WindowAnswered budget bitrate size result }
{
    if !are_allowed(budget, bitrate, size) {
        return Err(Refusal::Values);
    }
    Ok(divide(budget, bitrate, size))
}
