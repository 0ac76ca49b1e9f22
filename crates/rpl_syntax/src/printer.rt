// A text that is built from the parts of an expression.
ghost use Rattle.std.specs.Fmt.{decimal};
ghost use Rattle.std.specs.Prelude.{◌≡◌, ◌<◌, ◌+◌, ◌/◌, ◌%◌, None, [], ◌∷◌, ◌++◌, chars, OnOk};
ghost use Rattle.std.specs.Prelude.{IfOk};
ghost use Rattle.rpl_syntax.specs.Printed.{digit_char, quoted_char, quoted, literal_text};
ghost use Rattle.rpl_syntax.specs.Printed.{four_digits, point_text};
ghost use Rattle.rpl_syntax.specs.Printed.{range_text, ranges_text, members_text, caret_text};
ghost use Rattle.rpl_syntax.specs.Printed.{class_text, name_text};
ghost use Rattle.rpl_syntax.specs.Printed.{bounds_text, quant_text};

use crate::NoMemory;
use crate::name::QName;
use rpl_classes::Set;
use rpl_text::Chars;
use std::alloc::Global;
use std::marker::Model;

/// A text that is being printed. Contracts see its characters.
///
/// # Examples
///
/// ```
/// use rpl_syntax::Printer;
/// use rpl_text::Chars;
/// let mut printer = Printer::new(alloc);
/// printer.literal(&Chars::from_str(alloc, "a\"b")?)?;
/// printer.quantifier(2, None)?;
/// assert!(rt; printer.finish(alloc)?.as_str() == "\"a\\\"b\"{2,}");
/// ```
#[derive(Drop)]
pub struct Printer {
    text: String,
}

impl Model for Printer {
    ghost use Rattle.std.specs.Prelude.{ℕ, List, chars, string_bytes};

    ghost Value = { List ℕ };

    ghost view = { λ p. chars (string_bytes p.text) };
}

impl Printer {
    /// Returns an empty text.
    pub fn new(alloc: Global) -> Printer
        ensures { result ≡ [] }
    {
        Printer {
            text: String::new(alloc),
        }
    }

    /// Returns the text so far.
    pub fn finish(&self, alloc: Global) -> Result<Chars, NoMemory>
        ensures { IfOk result (λ c. c ≡ self.now) }
    {
        Chars::from_str(alloc, &self.text)
    }

    /// Appends a character.
    pub fn put(&mut self, c: char) -> Result<(), NoMemory>
        ensures { OnOk result (self.new ≡ self.old ++ c ∷ []) }
    {
        self.text.push(c)?;
        Ok(())
    }

    /// Appends a text as it is.
    pub fn word(&mut self, text: &Chars) -> Result<(), NoMemory>
        ensures { OnOk result (self.new ≡ self.old ++ text.now) }
    {
        self.text.push_str(text.as_str())?;
        Ok(())
    }

    /// Appends a number in decimal digits.
    pub fn decimal(&mut self, number: u32) -> Result<(), NoMemory>
        ensures { OnOk result (self.new ≡ self.old ++ decimal number) }
    {
        write!(self.text, "{number}")?;
        Ok(())
    }

    /// Appends a hexadecimal digit. `letter` is the ASCII code of the digit with the value ten.
    fn digit(&mut self, letter: u8, value: u32) -> Result<(), NoMemory>
        requires value { value < 16 }
        requires letter { letter < 100 }
        ensures { OnOk result (self.new ≡ self.old ++ digit_char letter value ∷ []) }
    {
        let value = value as u8;
        let byte = if value < 10 {
            b'0' + value
        } else {
            letter + (value - 10)
        };
        self.put(char::from(byte))
    }

    /// Appends a backslash and a character.
    fn escape(&mut self, c: char) -> Result<(), NoMemory>
        ensures { OnOk result (self.new ≡ self.old ++ 92 ∷ c ∷ []) }
    {
        self.put('\\')?;
        self.put(c)
    }

    /// Appends a control character as `\xHH`.
    fn control(&mut self, c: u32) -> Result<(), NoMemory>
        requires { c < 128 }
        ensures { OnOk result (self.new ≡ self.old ++ 92 ∷ 120 ∷ digit_char 97 (c / 16) ∷ digit_char
            97 (c % 16) ∷ []) }
    {
        self.escape('x')?;
        self.digit(b'a', c / 16)?;
        self.digit(b'a', c % 16)
    }

    /// Appends a character as it is written between quotes.
    fn quoted(&mut self, c: char) -> Result<(), NoMemory>
        ensures { OnOk result (self.new ≡ self.old ++ quoted_char c) }
    {
        match c {
            '"' => self.escape('"'),
            '\\' => self.escape('\\'),
            '\n' => self.escape('n'),
            '\r' => self.escape('r'),
            '\t' => self.escape('t'),
            _ if c < ' ' || c == '\x7f' => self.control(c as u32),
            _ => self.put(c),
        }
    }

    /// Appends a text between quotes.
    pub fn literal(&mut self, text: &Chars) -> Result<(), NoMemory>
        ensures { OnOk result (self.new ≡ self.old ++ literal_text text.now) }
    {
        self.put('"')?;
        self.inside(text.as_str())?;
        self.put('"')
    }

    /// Appends the characters of a text as they are written between quotes, without the quotes.
    fn inside(&mut self, text: &str) -> Result<(), NoMemory>
        ensures { OnOk result (self.new ≡ self.old ++ quoted (chars text.now)) }
    {
        for c in text.chars() {
            self.quoted(c)?;
        }
        Ok(())
    }

    /// Appends a number as four upper-case hexadecimal digits.
    fn four_digits(&mut self, number: u32) -> Result<(), NoMemory>
        requires { number < 65536 }
        ensures { OnOk result (self.new ≡ self.old ++ four_digits number) }
    {
        self.digit(b'A', number / 4096)?;
        self.digit(b'A', number / 256 % 16)?;
        self.digit(b'A', number / 16 % 16)?;
        self.digit(b'A', number % 16)
    }

    /// Appends a character as an escape with its number: `\UXXXXXXXX`.
    #[tactic(auto, unfolding(crate::specs::Printed::point_text))]
    fn point(&mut self, c: u32) -> Result<(), NoMemory>
        ensures { OnOk result (self.new ≡ self.old ++ point_text c) }
    {
        self.escape('U')?;
        self.four_digits(c / 65536)?;
        self.four_digits(c % 65536)
    }

    /// Appends a range as a bracket of its own.
    #[tactic(auto, unfolding(crate::specs::Printed::range_text))]
    fn range(&mut self, low: u32, high: u32) -> Result<(), NoMemory>
        ensures { OnOk result (self.new ≡ self.old ++ range_text low high) }
    {
        self.put('[')?;
        self.point(low)?;
        self.put('-')?;
        self.point(high)?;
        self.put(']')
    }

    fn ranges(&mut self, ranges: &[(u32, u32)]) -> Result<(), NoMemory>
        ensures { OnOk result (self.new ≡ self.old ++ ranges_text ranges.now) }
    {
        for range in ranges {
            self.range(range.0, range.1)?;
        }
        Ok(())
    }

    /// Appends a bracket that matches no character: the complement of all characters.
    fn nothing(&mut self) -> Result<(), NoMemory>
        ensures { OnOk result (self.new ≡ self.old ++ members_text []) }
    {
        self.put('[')?;
        self.put('^')?;
        self.range(0, 0xd7ff)?;
        self.range(0xe000, 0x10_ffff)?;
        self.put(']')
    }

    fn members(&mut self, ranges: &[(u32, u32)]) -> Result<(), NoMemory>
        ensures { OnOk result (self.new ≡ self.old ++ members_text ranges.now) }
    {
        if ranges.is_empty() {
            self.nothing()
        } else {
            self.ranges(ranges)
        }
    }

    fn caret(&mut self, negated: bool) -> Result<(), NoMemory>
        ensures { OnOk result (self.new ≡ self.old ++ caret_text negated) }
    {
        if negated { self.put('^') } else { Ok(()) }
    }

    /// Appends a set as a bracket of ranges.
    pub fn class(&mut self, set: &Set, negated: bool) -> Result<(), NoMemory>
        ensures { OnOk result (self.new ≡ self.old ++ class_text set.now negated) }
    {
        self.put('[')?;
        self.caret(negated)?;
        self.members(set.ranges())?;
        self.put(']')
    }

    /// Appends a name, preceded by its prefix and a dot if it has a prefix.
    pub fn name(&mut self, name: &QName) -> Result<(), NoMemory>
        ensures { OnOk result (self.new ≡ self.old ++ name_text name.now) }
    {
        if let Some(prefix) = &name.prefix {
            self.word(prefix)?;
            self.put('.')?;
        }
        self.word(&name.name)
    }

    /// Appends bounds with two numbers: `{n,m}`.
    fn between(&mut self, least: u32, most: u32) -> Result<(), NoMemory>
        ensures { OnOk result (self.new ≡ self.old ++ 123 ∷ decimal least ++ 44 ∷ decimal most
            ++ 125 ∷ []) }
    {
        self.put('{')?;
        self.decimal(least)?;
        self.put(',')?;
        self.decimal(most)?;
        self.put('}')
    }

    /// Appends bounds with one number: `{n}`.
    fn exactly(&mut self, count: u32) -> Result<(), NoMemory>
        ensures { OnOk result (self.new ≡ self.old ++ 123 ∷ decimal count ++ 125 ∷ []) }
    {
        self.put('{')?;
        self.decimal(count)?;
        self.put('}')
    }

    /// Appends bounds without an upper number: `{n,}`.
    fn at_least(&mut self, least: u32) -> Result<(), NoMemory>
        ensures { OnOk result (self.new ≡ self.old ++ bounds_text least None) }
    {
        self.put('{')?;
        self.decimal(least)?;
        self.put(',')?;
        self.put('}')
    }

    /// Appends a quantifier.
    pub fn quantifier(&mut self, least: u32, most: Option<u32>) -> Result<(), NoMemory>
        ensures { OnOk result (self.new ≡ self.old ++ quant_text least most) }
    {
        match (least, most) {
            (0, None) => self.put('*'),
            (1, None) => self.put('+'),
            (0, Some(1)) => self.put('?'),
            (_, None) => self.at_least(least),
            (_, Some(most)) if least == most => self.exactly(least),
            (_, Some(most)) => self.between(least, most),
        }
    }
}
