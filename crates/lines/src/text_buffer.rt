// A text that is built from its front, in a room of N bytes.
ghost use Rattle.std.specs.Prelude.{◌≡◌, ℕ, List, ◌++◌, ◌+◌, ◌≤◌, ◌^◌, [], length, take};
ghost use Rattle.lines.specs.Lines.{decimal_of, field_of, verdict_text};

use answers::Verdict;
use std::marker::Model;

#[derive(Drop)]
pub struct TextBuffer<const N: usize> {
    bytes: [u8; N],
    end: usize,
}

// Clauses see the bytes that were put.
impl<const N: usize> Model for TextBuffer<N> {
    ghost Value = { List ℕ };

    ghost view = { λ t. take t.end t.bytes };

    ghost invariant = { λ t. t.end ≤ N };
}

impl<const N: usize> TextBuffer<N> {
    // Nothing yet.
    pub fn new() -> Self
        ensures { result ≡ [] }
    {
        TextBuffer {
            bytes: [0; N],
            end: 0,
        }
    }

    // Takes away all that was put.
    pub fn clear(&mut self)
        ensures { self.new ≡ [] }
    {
        self.end = 0;
    }

    // What was put.
    pub fn bytes(&self) -> &[u8]
        ensures { result.now ≡ self.now }
    {
        &self.bytes[..self.end]
    }

    // Puts bytes behind what stands.
    pub fn put(&mut self, text: &[u8])
        requires { length self.old + length text.now ≤ N }
        ensures { self.new ≡ self.old ++ text.now }
    {
        let from = self.end;
        let end = from + text.len();
        let room = &mut self.bytes[..];
        room[from..end].copy_from_slice(text);
        self.end = end;
    }

    // Puts a number in decimal digits.
    #[tactic(auto, using(crate::proofs::Decimals::number_is))]
    pub fn number(&mut self, n: u64)
        requires { length self.old + 20 ≤ N }
        ensures digits { self.new ≡ self.old ++ decimal_of n }
        ensures few { length self.new ≤ length self.old + 20 }
    {
        let mut digits = [0u8; 20];
        let k = io::decimal(n, &mut digits);
        self.put(&digits[0..k]);
    }

    // Puts a further field.
    pub fn field(&mut self, n: u64)
        requires { length self.old + 21 ≤ N }
        ensures field { self.new ≡ self.old ++ field_of n }
        ensures few { length self.new ≤ length self.old + 21 }
    {
        self.put(b" ");
        self.number(n);
    }

    // Puts a further field that is a verdict.
    pub fn verdict(&mut self, verdict: Verdict)
        requires { length self.old + 8 ≤ N }
        ensures verdict { self.new ≡ self.old ++ verdict_text verdict }
        ensures few { length self.new ≤ length self.old + 8 }
    {
        match verdict {
            Verdict::False => self.put(b" false"),
            Verdict::True => self.put(b" true"),
            Verdict::Pending => self.put(b" pending"),
        }
    }
}
