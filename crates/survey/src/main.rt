// Prints the longest row of zero bytes drawn for one coefficient of GF(2^8): over every key and density threshold, 255 coefficients each. Sixteen would be
// refusal 10.
#![tactic(auto)]

ghost use Rattle.std.specs.Prelude.{◌≡◌, ◌<◌, ℕ};
ghost use Rattle.survey.specs.Survey.{counted, largest, longest_of_key, longest_at, longest_zeros};

use coefficients::next_coefficient;
use std::io;
use wire::Scheme;

// The zero bytes drawn for one coefficient, and the generator's state after its draws.
#[derive(Clone, Copy)]
struct Counted {
    zeros: u8,
    state: [u32; 4],
}

// One coefficient: its draws, but for rand16 below the density threshold 15 and for the byte that is not zero.
fn zeros_of(dt: u8, s: [u32; 4]) -> Counted
    ensures { result ≡ counted dt s }
{
    let c = next_coefficient(Scheme::Gf256, dt, s);
    let bytes = if dt == 15 { c.draws } else { c.draws - 1 };
    let zeros = if c.value.unwrap_or(0) == 0 {
        bytes
    } else {
        bytes - 1
    };
    let state = c.state;
    Counted { zeros, state }
}

// The largest value of f below n.
fn largest<F: Fn(u32) -> u8>(n: u32, f: F) -> u8
    requires { (i : ℕ) → i < n → F.pre f i }
    ensures { (g : ℕ → ℕ) → ((i r : ℕ) → i < n → F.post f i r → r ≡ g i) → result ≡ largest g n }
{
    let mut most: u8 = 0;
    for i in 0..n {
        most = most.max(f(i));
    }
    most
}

// The 255 coefficients of a key.
fn longest_of_key(dt: u8, key: u32) -> u8
    ensures { result ≡ longest_of_key dt 255 key }
{
    let mut state = tinymt::start(key);
    let mut longest: u8 = 0;
    // Kept: each turn goes on from the state that the one before left, and `largest` takes a closure of the index alone.
    for _ in 0..255u8 {
        let c = zeros_of(dt, state);
        longest = longest.max(c.zeros);
        state = c.state;
    }
    longest
}

// Every key at a density threshold.
fn longest_at(dt: u8) -> u8
    ensures { result ≡ longest_at 255 65536 dt }
{
    largest(65536, |key| longest_of_key(dt, key))
}

// Every density threshold.
fn longest_zeros() -> u8
    ensures { result ≡ longest_zeros }
{
    largest(16, |dt| longest_at(dt as u8))
}

fn main(rt: HostRuntime) -> io::Result<()> {
    let longest = longest_zeros();
    println!(rt; "{longest}")
}
