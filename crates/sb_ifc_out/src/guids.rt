//! Identifiers of instances.

ghost use Rattle.std.specs.Prelude.{◌≡◌, ◌<◌};
ghost use Rattle.sb_ifc_out.specs.Guids.{guid_of, digit_of};

/// The identifier of a number (ISO 16739, IfcGloballyUniqueId): its 22 digits in base 64, the most
/// significant first.
pub fn guid(value: u128) -> [u8; 22]
    ensures { result ≡ guid_of value }
{
    let mut text = [b'0'; 22];
    let mut left = value;
    let mut place = 22;
    'places: while place > 0 {
        place -= 1;
        text[place] = digit(left % 64);
        left /= 64;
    }
    text
}

/// The digit of a value in base 64.
fn digit(value: u128) -> u8
    requires { value < 64 }
    ensures { result ≡ digit_of value }
{
    b"0123456789ABCDEFGHIJKLMNOPQRSTUVWXYZabcdefghijklmnopqrstuvwxyz_$"[value as usize]
}
