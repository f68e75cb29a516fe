ghost use Rattle.std.specs.Prelude.{◌≡◌, ◌≤◌, ◌<◌, ◌^◌, nat_eq, length, MatchOption};
ghost use Rattle.std.specs.List.{list_all};
ghost use Rattle.spec_lines.specs.Items.{keep_if};
ghost use Rattle.spec_lines.specs.Readings.{is_digit_byte, is_led, number_at, value_after};

use std::marker::Model;

/// A decimal number of at most 39 digits. Contracts see the number.
#[derive(Debug, Drop)]
pub struct Number {
    /// What the digits before the last 20 spell.
    front: u128,
    /// What the last 20 digits spell.
    back: u128,
}

const TWENTY_DIGITS: u128 = 100_000_000_000_000_000_000;

impl Model for Number {
    ghost use Rattle.std.specs.Prelude.{ℕ, ◌+◌, ◌*◌};

    ghost Value = { ℕ };

    ghost view = { λ n. n.front * 100000000000000000000 + n.back };
}

/// Whether there are 1 to 39 bytes, of which the first is no zero unless it is alone.
fn is_well_led(text: &[u8]) -> bool
    ensures { result ≡ is_led text.now }
{
    match text {
        [] => false,
        [_] => true,
        [first, ..] => text.len() <= 39 && *first != b'0',
    }
}

/// The number that at most 20 digits spell; None where a byte is no digit.
#[tactic(auto, using(crate::proofs::Values::one_more, crate::proofs::Values::room))]
fn few_digits(text: &[u8]) -> Option<u128>
    requires { length text.now ≤ 20 }
    ensures { result ≡ keep_if (list_all is_digit_byte text.now) (value_after 0 text.now) }
{
    let mut number: u128 = 0;
    for byte in text {
        if !byte.is_ascii_digit() {
            return None;
        }
        number = number * 10 + u128::from(*byte - b'0');
    }
    Some(number)
}

impl Number {
    /// A number of 32 bits.
    pub fn of(number: u32) -> Number
        ensures { result ≡ number }
    {
        Number {
            front: 0,
            back: u128::from(number),
        }
    }

    /// The number that the text spells without leading zeros in 1 to 39 digits.
    pub(crate) fn read(text: &[u8]) -> Option<Number>
        ensures { result ≡ number_at text.now }
    {
        if !is_well_led(text) {
            return None;
        }
        let (front, back) = text.split_at(text.len().saturating_sub(20));
        let front = few_digits(front)?;
        let back = few_digits(back)?;
        Some(Number { front, back })
    }

    /// The number, where it is below 2^128.
    pub fn value(&self) -> Option<u128>
        ensures { MatchOption result (2 ^ 128 ≤ self.now) (λ value. value ≡ self.now) }
    {
        self.front
            .checked_mul(TWENTY_DIGITS)?
            .checked_add(self.back)
    }

    /// The number, where it is at most this one.
    pub(crate) fn up_to(&self, most: u32) -> Option<u32>
        ensures { MatchOption result (most < self.now) (λ number. (number ≡ self.now) × (number ≤ most)) }
    {
        let value = self.value()?;
        if value > u128::from(most) {
            return None;
        }
        Some(value as u32)
    }

    /// Whether it is this number.
    pub(crate) fn is(&self, number: u32) -> bool
        ensures { result ≡ nat_eq self.now number }
    {
        match self.value() {
            Some(value) => value == u128::from(number),
            None => false,
        }
    }
}
