// A type of numbers that a sheet's number holds.
ghost use Rattle.std.specs.Prelude.{◌≡◌, ℕ};

// A number of at most 32 bits, of whatever width: lists of disks are bytes, lists of blocks are pairs of bytes.
pub trait Numeral: Copy + Into<u32> {
    // The number that a value is.
    ghost value: { Self → ℕ };

    // It is what the value is converted into.
    ghost into_value: { (x : Self) (n : ℕ) → Self.Into.converts x n → n ≡ value x };
}

impl Numeral for u8 {
    ghost value = { λ x. x };

    ghost into_value = { λ x n h. h };
}

impl Numeral for u16 {
    ghost value = { λ x. x };

    ghost into_value = { λ x n h. h };
}

impl Numeral for u32 {
    ghost value = { λ x. x };

    ghost into_value = { λ x n h. h };
}
