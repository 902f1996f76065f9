// Room for the text of a number.
ghost use Rattle.std.specs.Prelude.{◌≡◌};
ghost use Rattle.awk_numbers.specs.declared.number.Number.TheVariants.{Real};
ghost use Rattle.awk_text.specs.Values.{number_text};

use arrayvec::ArrayVec;
use awk_numbers::number::Number;
use awk_numbers::texts::write_real;

/// As many bytes has the longest text: the sign and the digits of the largest double.
const MOST_BYTES: usize = 320;

/// Room for the text of a number that is lent from it. It is plain bytes, so that nothing is to be done where it goes.
#[derive(Clone, Copy)]
pub struct Buffer {
    whole: itoa::Buffer,
    /// Few texts want it, and to fill it with zeros takes time.
    real: Option<[u8; MOST_BYTES]>,
}

impl Buffer {
    /// An empty one. Takes no memory.
    #[inline(always)]
    pub fn new() -> Buffer {
        Buffer {
            whole: itoa::Buffer::new(),
            real: None,
        }
    }

    /// The text of a double, lent.
    #[inline(never)]
    fn real_text(&mut self, x: f64) -> &[u8]
        ensures { result.now ≡ number_text (Real x) }
    {
        let mut made = ArrayVec::new();
        write_real(x, &mut made);
        let room = self.real.insert([0; MOST_BYTES]);
        let text = &mut room[..made.len()];
        text.copy_from_slice(made.as_slice());
        text
    }

    /// The text of a number, lent: of one without a fraction its decimal digits, of another one as `%.6g`
    /// has it. Takes no memory.
    #[inline(always)]
    pub fn text(&mut self, number: Number) -> &[u8]
        ensures { result.now ≡ number_text number }
    {
        match number {
            Number::Whole(n) => self.whole.format(n).as_bytes(),
            Number::Real(x) => self.real_text(x),
        }
    }
}
