// What a code page is, for code that works over any of them.
ghost use Rattle.std.specs.Prelude.{◌≡◌, ℕ, ◌<◌, ◌≤◌, true, Some, Option};
ghost use Rattle.std.proofs.Math.Utf8.{scalar};

// A code page: the characters of the bytes. Its meaning is a number, the character of each byte or none, and the byte of each character or none.
pub trait CodePage {
    // The number that names the page.
    ghost number: { Self → ℕ };

    // The character of a byte, or None.
    ghost decoded: { Self → ℕ → Option ℕ };

    // The byte of a character, or None.
    ghost encoded: { Self → ℕ → Option ℕ };

    fn number(&self) -> u16
        ensures { result ≡ number self.now };

    fn decode(&self, byte: u8) -> Option<char>
        ensures { result ≡ decoded self.now byte };

    fn encode(&self, character: char) -> Option<u8>
        ensures { result ≡ encoded self.now character };

    // The number fits in 16 bits, and 0 names no page.
    ghost numbered: { (p : Self) → (1 ≤ number p) × (number p ≤ 65535) };

    // The bytes 0 to 127 have the characters of the same numbers.
    ghost ascii: { (p : Self) (b : ℕ) → b < 128 → decoded p b ≡ Some b };

    // The byte of a byte's character is that byte, so no two bytes have one character.
    ghost there: { (p : Self) (b c : ℕ) → decoded p b ≡ Some c → encoded p c ≡ Some b };

    // The character of a character's byte is that character.
    ghost back: { (p : Self) (b c : ℕ) → encoded p c ≡ Some b → decoded p b ≡ Some c };

    // Only a byte has a character.
    ghost bytes: { (p : Self) (b c : ℕ) → decoded p b ≡ Some c → b < 256 };

    // A character is a Unicode scalar value.
    ghost scalars: { (p : Self) (b c : ℕ) → decoded p b ≡ Some c → scalar c ≡ true };
}
