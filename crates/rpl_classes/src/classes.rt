// The named classes of the POSIX C locale.
ghost use Rattle.std.specs.Prelude.{◌≡◌, ◌≢◌, MatchOption};
ghost use Rattle.rpl_classes.specs.Sets.{HasJust};
ghost use Rattle.rpl_classes.specs.Classes.{in_class, name_of};
ghost use Rattle.rpl_classes.specs.declared.classes.NamedClass.{NamedClass};

/// A class of the POSIX C locale.
#[derive(Clone, Copy, Debug, PartialEq, Eq)]
pub(crate) enum NamedClass {
    Alpha,
    Digit,
    Alnum,
    Upper,
    Lower,
    Space,
    Blank,
    Punct,
    Xdigit,
    Cntrl,
    Graph,
    Print,
}

impl NamedClass {
    /// Returns the class with this name.
    pub(crate) fn from_name(name: &str) -> Option<NamedClass>
        ensures { MatchOption result ((k : NamedClass) →
            name_of k ≢ name.now) (λ k. name_of k ≡ name.now) }
    {
        match name {
            "alpha" => Some(NamedClass::Alpha),
            "digit" => Some(NamedClass::Digit),
            "alnum" => Some(NamedClass::Alnum),
            "upper" => Some(NamedClass::Upper),
            "lower" => Some(NamedClass::Lower),
            "space" => Some(NamedClass::Space),
            "blank" => Some(NamedClass::Blank),
            "punct" => Some(NamedClass::Punct),
            "xdigit" => Some(NamedClass::Xdigit),
            "cntrl" => Some(NamedClass::Cntrl),
            "graph" => Some(NamedClass::Graph),
            "print" => Some(NamedClass::Print),
            _ => None,
        }
    }

    /// Returns the ranges of the class.
    pub(crate) fn ranges(self) -> &'static [(u32, u32)]
        ensures { HasJust result.now (in_class self) }
    {
        match self {
            NamedClass::Alpha => &[(0x41, 0x5a), (0x61, 0x7a)],
            NamedClass::Digit => &[(0x30, 0x39)],
            NamedClass::Alnum => &[(0x30, 0x39), (0x41, 0x5a), (0x61, 0x7a)],
            NamedClass::Upper => &[(0x41, 0x5a)],
            NamedClass::Lower => &[(0x61, 0x7a)],
            NamedClass::Space => &[(0x9, 0xd), (0x20, 0x20)],
            NamedClass::Blank => &[(0x9, 0x9), (0x20, 0x20)],
            NamedClass::Punct => &[(0x21, 0x2f), (0x3a, 0x40), (0x5b, 0x60), (0x7b, 0x7e)],
            NamedClass::Xdigit => &[(0x30, 0x39), (0x41, 0x46), (0x61, 0x66)],
            NamedClass::Cntrl => &[(0x0, 0x1f), (0x7f, 0x7f)],
            NamedClass::Graph => &[(0x21, 0x7e)],
            NamedClass::Print => &[(0x20, 0x7e)],
        }
    }
}
