ghost use Rattle.std.specs.Prelude.{◌≡◌, ◌+◌, ◌/◌, ◌%◌, ◌^◌, ◌≤◌, ◌++◌, length, take, decimal, codes, OnOk, OnErr};
ghost use Rattle.std.specs.Prelude.{unsigned_abs};
ghost use Rattle.sb_fixed.specs.Printed.{last_digits, sign_text, scaled_text};

use itoa::Buffer;
use std::alloc::AllocError;

/// Appends the number `value/10^places` in decimal with exactly so many places behind its point,
/// and a minus only below zero: -1 with six places is `-0.000001`.
///
/// Want of memory leaves the bytes as they were.
pub fn print_scaled(out: &mut Vec<u8>, value: i128, places: u32) -> Result<(), AllocError>
    requires some_places { 1 ≤ places }
    requires few_places { places ≤ 9 }
    ensures ok { OnOk result (out.new.items ≡ out.old.items ++ scaled_text value places) }
    ensures err { OnErr result (out.new.items ≡ out.old.items) }
{
    let before = out.len();
    let printed = append_scaled(out, value, places);
    if printed.is_err() {
        out.truncate(before);
    }
    printed
}

/// Appends the number. Want of memory may leave a first part of it.
#[tactic(auto, unfolding(crate::specs::Printed::scaled_text))]
fn append_scaled(out: &mut Vec<u8>, value: i128, places: u32) -> Result<(), AllocError>
    requires few_places { places ≤ 9 }
    ensures ok { OnOk result (out.new.items ≡ out.old.items ++ scaled_text value places) }
    ensures err { OnErr result (take (length out.old.items) out.new.items ≡ out.old.items) }
{
    let size = value.unsigned_abs();
    append_sign(out, value)?;
    append_whole(out, size, places)?;
    out.extend_from_slice(b".")?;
    append_last_digits(out, size, places)
}

/// Appends a minus, where the number is below zero.
fn append_sign(out: &mut Vec<u8>, value: i128) -> Result<(), AllocError>
    ensures ok { OnOk result (out.new.items ≡ out.old.items ++ sign_text value) }
    ensures err { OnErr result (out.new.items ≡ out.old.items) }
{
    if value < 0 {
        out.extend_from_slice(b"-")?;
    }
    Ok(())
}

/// Appends what is whole in a number with so many places.
#[tactic(auto, using(crate::proofs::LeadingDigits::tens_positive))]
fn append_whole(out: &mut Vec<u8>, size: u128, places: u32) -> Result<(), AllocError>
    requires few_places { places ≤ 9 }
    ensures ok { OnOk result (out.new.items ≡ out.old.items ++ decimal (size / 10 ^ places)) }
    ensures err { OnErr result (out.new.items ≡ out.old.items) }
{
    let mut buffer = Buffer::new();
    out.extend_from_slice(buffer.format(size / 10_u128.pow(places)).as_bytes())
}

/// Appends the last digits of a number, so many. Want of memory may leave a first part of them.
fn append_last_digits(out: &mut Vec<u8>, number: u128, count: u32) -> Result<(), AllocError>
    requires few { count ≤ 9 }
    ensures ok { OnOk result (out.new.items ≡ out.old.items ++ last_digits count number) }
    ensures err { OnErr result (take (length out.old.items) out.new.items ≡ out.old.items) }
{
    for done in 0..count {
        out.push(digit_at(number, count - 1 - done))?;
    }
    Ok(())
}

/// The digit that stands before so many last ones.
#[tactic(auto, using(crate::proofs::LeadingDigits::tens_positive))]
fn digit_at(number: u128, place: u32) -> u8
    requires { place ≤ 9 }
    ensures { result ≡ 48 + number / 10 ^ place % 10 }
{
    b'0' + (number / 10_u128.pow(place) % 10) as u8
}
