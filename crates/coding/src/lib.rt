// How what a call answers is coded as one signed number.
#![tactic(auto)]

ghost use Rattle.std.specs.Prelude.{◌≡◌, Result, Ok, Err, refl};
ghost use Rattle.wire.specs.declared.Refusal.{Refusal};
ghost use Rattle.wire.specs.Numbers.{number_of};
ghost use Rattle.wire.specs.Answers.{Said, value, refusal, said};
ghost use Rattle.receiver.specs.Promises.{handed_said};
ghost use Rattle.coding.specs.Coding.{coded, packet_said, symbol_said, window_said, remainder_after};

use wire::Refusal;

// A value as it is coded.
pub fn coded_value(n: usize) -> i64
    ensures { result ≡ coded (value n) }
{
    n.min(i64::MAX as usize) as i64
}

// A refusal as it is coded.
pub fn coded_refusal(why: Refusal) -> i64
    ensures { result ≡ coded (refusal (number_of why)) }
{
    -(u8::from(why) as i64)
}

// What a call answers where it does not refuse, with what each answer says.
pub trait Answer {
    ghost says: { Result Self Refusal → Said };

    // As it is coded.
    fn code(self) -> i64
        ensures { result ≡ coded (says (Ok self)) };

    // A refusal says its number.
    ghost refuses: { (why : Refusal) → says (Err why) ≡ refusal (number_of why) };
}

// A size, 0, a number of bytes, or a place.
impl Answer for usize {
    ghost says = { said };

    ghost refuses = { λ why. refl };

    fn code(self) -> i64 {
        coded_value(self)
    }
}

// Of a packet call and of making repair: a value, and the draws beside it.
impl Answer for (usize, u32) {
    ghost says = { packet_said };

    ghost refuses = { λ why. refl };

    fn code(self) -> i64 {
        coded_value(self.0.saturating_add(4294967296 * self.1 as usize))
    }
}

// Of the symbol call: whether the symbol is heard.
impl Answer for bool {
    ghost says = { symbol_said };

    ghost refuses = { λ why. refl };

    fn code(self) -> i64 {
        if self { 4294967296 } else { 0 }
    }
}

// Of the ADU call: its flow and its length.
impl Answer for (u8, usize) {
    ghost says = { handed_said };

    ghost refuses = { λ why. refl };

    fn code(self) -> i64 {
        coded_value(self.1.saturating_add(self.0 as usize * 65536))
    }
}

// Of the call for the window: quotient and remainder.
impl Answer for (u64, u64) {
    ghost says = { window_said };

    ghost refuses = { λ why. refl };

    fn code(self) -> i64 {
        coded_value(self.0 as usize)
    }
}

// An answer of any call.
pub fn coded<T: Answer>(answer: Result<T, Refusal>) -> i64
    ensures { result ≡ coded (T.says answer) }
{
    match answer {
        Ok(given) => given.code(),
        Err(why) => coded_refusal(why),
    }
}

// An answer of the call for the window, whose remainder is written, if there is one.
pub fn coded_window(answer: Result<(u64, u64), Refusal>, remainder: &mut u64) -> i64
    ensures { (result ≡ coded (window_said answer)) × (remainder.new ≡ remainder_after answer remainder.old) }
{
    if let Ok((_, rest)) = answer {
        *remainder = rest;
    }
    coded(answer)
}
