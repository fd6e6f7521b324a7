//! The integer types.
ghost use Rattle.std.specs.Prelude.{◌≡◌, Some};
ghost use Rattle.go_const.specs.Constants.{fits};

/// An integer type. [Numeric types](https://go.dev/ref/spec#Numeric_types)
#[derive(Clone, Copy, PartialEq, Eq, Debug)]
pub enum IntKind {
    /// `int`, which has 64 bits.
    Int,
    /// `int8`.
    Int8,
    /// `int16`.
    Int16,
    /// `int32`, and `rune`.
    Int32,
    /// `int64`.
    Int64,
    /// `uint`, which has 64 bits.
    Uint,
    /// `uint8`, and `byte`.
    Uint8,
    /// `uint16`.
    Uint16,
    /// `uint32`.
    Uint32,
    /// `uint64`.
    Uint64,
}

impl IntKind {
    /// Whether a number is a value of the type.
    pub fn fits(self, number: i128) -> bool
        ensures { result ≡ fits (Some self) number }
    {
        match self {
            IntKind::Int => i64::try_from(number).is_ok(),
            IntKind::Int8 => i8::try_from(number).is_ok(),
            IntKind::Int16 => i16::try_from(number).is_ok(),
            IntKind::Int32 => i32::try_from(number).is_ok(),
            IntKind::Int64 => i64::try_from(number).is_ok(),
            IntKind::Uint => u64::try_from(number).is_ok(),
            IntKind::Uint8 => u8::try_from(number).is_ok(),
            IntKind::Uint16 => u16::try_from(number).is_ok(),
            IntKind::Uint32 => u32::try_from(number).is_ok(),
            IntKind::Uint64 => u64::try_from(number).is_ok(),
        }
    }
}
