// A run of each command, and its results when one call fails.
//
// A row shows what is written to `out` and, after the `!`, what is written to `err`. A `¶` is a
// line feed, and `…` stands for all that is written to that output if no call fails. The first row
// of a device is for its first call, and the last row for its last call.
//
// A line is answered once its line feed, or the end of the input, has been read, and before
// anything more is read. A text for `out` is written and flushed before a text for `err` is
// written. Before a read of an input that may block, both outputs are flushed if anything was
// written since the last read; this holds for a session too. At the end of a run, both outputs are
// flushed. A file that is loaded is read to its end before anything that depends on it is written.
use crate::command::{Device, Run};
use crate::files::CODE;
use rosie_cli::Status;

/// A run, and its results.
#[derive(Clone, Copy)]
pub(crate) struct Case {
    pub(crate) run: Run<'static>,
    /// The status of a run in which no call fails. `out` and `err` are what such a run writes.
    pub(crate) status: Status,
    pub(crate) out: &'static [u8],
    pub(crate) err: &'static [u8],
    files: &'static str,
    input: &'static str,
    writes: Writes,
}

/// The output if a write or a flush of an output fails: one row for each call.
#[derive(Clone, Copy)]
struct Writes {
    out: &'static str,
    err: &'static str,
}

impl Case {
    /// Returns the output to expect when a call to this device fails, with one row for each call.
    pub(crate) fn rows(&self, device: Device) -> &'static str {
        match device {
            Device::Files => self.files,
            Device::Input => self.input,
            Device::Out => self.writes.out,
            Device::Err => self.writes.err,
        }
    }
}

pub(crate) const CASES: [Case; 12] = [
    MATCH, GREP, TEST, LIST, EXPAND, TRACE, SAMPLE, REPL, COMPILE, CODE_FILE, CLASS, MISSING,
];

/// One text is written to `out` in one write; then both outputs are flushed.
const ONE_TEXT: Writes = Writes {
    out: "\
        !
        …!",
    err: "…!",
};

/// A text is written to `out` for a line of a file, and a fault to `err` for a line of the standard
/// input.
const TEXT_AND_FAULT: Writes = Writes {
    out: "\
        !
        …!
        …!
        …!…
        …!…",
    err: "\
        …!
        …!
        …!…
        …!…",
};

/// The rows for reads of standard input: its only line isn't UTF-8, and the answer for a file has
/// already been written when that line is read.
const BAD_LINE: &str = "\
        …!rosie: -: read failed¶
        …!rosie: -:1: not UTF-8¶rosie: -: read failed¶";

/// The rows for loading rules, which takes three calls: one opens the file, one reads its bytes,
/// and one finds its end.
const X_RULES: &str = "\
        !rosie: x.rpl: read failed¶
        !rosie: x.rpl: read failed¶
        !rosie: x.rpl: read failed¶";

/// A pattern from an imported package, run on a file, on the standard input, and on another file.
/// Each call reads or writes only a few bytes.
const MATCH: Case = Case {
    run: Run {
        words: "match --steps -o line --libpath lib p.ab f - g",
        input: b"ab2\n\xff\nab3\n",
        in_pieces: true,
    },
    status: Status::LineFault,
    out: b"ab1\nab2\nab3\nab4\n",
    err: b"steps 7\nsteps 4\nsteps 7\nrosie: -:2: not UTF-8\n\
        steps 7\nrosie: g:1: not UTF-8\nsteps 7\n",
    // The package takes five calls: one opens it, three read its bytes, and one finds its end. Then
    // `f` and `g` take three calls each, of which one reads bytes.
    files: "\
        !rosie: lib/p.rpl: read failed¶
        !rosie: lib/p.rpl: read failed¶
        !rosie: lib/p.rpl: read failed¶
        !rosie: lib/p.rpl: read failed¶
        !rosie: lib/p.rpl: read failed¶
        !rosie: f: read failed¶
        !rosie: f: read failed¶
        ab1¶!steps 7¶steps 4¶rosie: f: read failed¶
        ab1¶ab2¶ab3¶!steps 7¶steps 4¶steps 7¶rosie: -:2: not UTF-8¶steps 7¶rosie: g: read failed¶
        ab1¶ab2¶ab3¶!steps 7¶steps 4¶steps 7¶rosie: -:2: not UTF-8¶steps 7¶rosie: g: read failed¶
        ab1¶ab2¶ab3¶!steps 7¶steps 4¶steps 7¶rosie: -:2: not UTF-8¶steps 7¶rosie: g:1: not UTF-8¶\
        rosie: g: read failed¶",
    // The reads return `ab2`, `¶ÿ¶`, `ab3` and `¶`, and then find the end.
    input: "\
        ab1¶!steps 7¶steps 4¶rosie: -: read failed¶
        ab1¶!steps 7¶steps 4¶rosie: -: read failed¶
        ab1¶ab2¶!steps 7¶steps 4¶steps 7¶rosie: -:2: not UTF-8¶rosie: -: read failed¶
        ab1¶ab2¶!steps 7¶steps 4¶steps 7¶rosie: -:2: not UTF-8¶rosie: -: read failed¶
        ab1¶ab2¶ab3¶!steps 7¶steps 4¶steps 7¶rosie: -:2: not UTF-8¶steps 7¶rosie: -: read failed¶",
    writes: Writes {
        // Each answer takes two writes and, since its steps are reported, a flush. A line without
        // an answer takes only a flush. One more flush follows when the bytes that were read hold
        // no further whole line, and another at the end.
        out: "\
        !
        ab1!
        ab1¶!
        ab1¶!steps 7¶
        ab1¶!steps 7¶steps 4¶
        ab1¶!steps 7¶steps 4¶
        ab1¶ab2!steps 7¶steps 4¶
        ab1¶ab2¶!steps 7¶steps 4¶
        ab1¶ab2¶!steps 7¶steps 4¶steps 7¶
        ab1¶ab2¶!steps 7¶steps 4¶steps 7¶rosie: -:2: not UTF-8¶
        ab1¶ab2¶!steps 7¶steps 4¶steps 7¶rosie: -:2: not UTF-8¶
        ab1¶ab2¶ab3!steps 7¶steps 4¶steps 7¶rosie: -:2: not UTF-8¶
        ab1¶ab2¶ab3¶!steps 7¶steps 4¶steps 7¶rosie: -:2: not UTF-8¶
        ab1¶ab2¶ab3¶!steps 7¶steps 4¶steps 7¶rosie: -:2: not UTF-8¶steps 7¶
        ab1¶ab2¶ab3¶!steps 7¶steps 4¶steps 7¶rosie: -:2: not UTF-8¶steps 7¶
        ab1¶ab2¶ab3¶!steps 7¶steps 4¶steps 7¶rosie: -:2: not UTF-8¶steps 7¶rosie: g:1: not UTF-8¶
        ab1¶ab2¶ab3¶!steps 7¶steps 4¶steps 7¶rosie: -:2: not UTF-8¶steps 7¶rosie: g:1: not UTF-8¶
        ab1¶ab2¶ab3¶ab4!steps 7¶steps 4¶steps 7¶rosie: -:2: not UTF-8¶steps 7¶rosie: g:1: not UTF-8¶
        …!steps 7¶steps 4¶steps 7¶rosie: -:2: not UTF-8¶steps 7¶rosie: g:1: not UTF-8¶
        …!…",
        // The steps of a line take one write, and each fault takes two. A flush follows when the
        // bytes that were read hold no further whole line, and another at the end.
        err: "\
        ab1¶!
        ab1¶!steps 7¶
        ab1¶!steps 7¶steps 4¶
        ab1¶ab2¶!steps 7¶steps 4¶
        ab1¶ab2¶!steps 7¶steps 4¶steps 7¶
        ab1¶ab2¶!steps 7¶steps 4¶steps 7¶rosie: -:2: not UTF-
        ab1¶ab2¶!steps 7¶steps 4¶steps 7¶rosie: -:2: not UTF-8¶
        ab1¶ab2¶ab3¶!steps 7¶steps 4¶steps 7¶rosie: -:2: not UTF-8¶
        ab1¶ab2¶ab3¶!steps 7¶steps 4¶steps 7¶rosie: -:2: not UTF-8¶steps 7¶
        ab1¶ab2¶ab3¶!steps 7¶steps 4¶steps 7¶rosie: -:2: not UTF-8¶steps 7¶
        ab1¶ab2¶ab3¶!steps 7¶steps 4¶steps 7¶rosie: -:2: not UTF-8¶steps 7¶rosie: g:1: not UTF-
        ab1¶ab2¶ab3¶!steps 7¶steps 4¶steps 7¶rosie: -:2: not UTF-8¶steps 7¶rosie: g:1: not UTF-8¶
        …!steps 7¶steps 4¶steps 7¶rosie: -:2: not UTF-8¶steps 7¶rosie: g:1: not UTF-8¶
        …!…",
    },
};

/// The rules and the input `f` take three calls each: one opens the file, one reads its bytes, and
/// one finds its end.
const GREP: Case = Case {
    run: Run {
        words: "grep -a -f r.rpl n f -",
        input: b"ab2\n\xff\nab3\n",
        in_pieces: false,
    },
    status: Status::LineFault,
    out: b"ab1\nab2\nab3\n",
    err: b"x\nrosie: -:2: not UTF-8\n",
    files: "\
        !rosie: r.rpl: read failed¶
        !rosie: r.rpl: read failed¶
        !rosie: r.rpl: read failed¶
        !rosie: f: read failed¶
        !rosie: f: read failed¶
        ab1¶!x¶rosie: f: read failed¶",
    input: "\
        ab1¶!x¶rosie: -: read failed¶
        …!x¶rosie: -:2: not UTF-8¶rosie: -: read failed¶",
    writes: Writes {
        out: "\
        !
        ab1¶!
        ab1¶!x¶
        ab1¶!x¶
        ab1¶ab2¶!x¶
        ab1¶ab2¶!…
        …!…
        …!…",
        err: "\
        ab1¶!
        ab1¶!x¶
        ab1¶ab2¶!x¶
        …!…
        …!…",
    },
};

/// The file is read twice: once for its rules, and once for its tests. One test fails, and one
/// exceeds its budget.
const TEST: Case = Case {
    run: Run {
        words: "test --budget 30 t.rpl",
        input: b"",
        in_pieces: false,
    },
    status: Status::LineFault,
    out: b"t.rpl:5: p includes q \"ab\"\nt.rpl: 3 tests, 1 failed\n",
    err: b"rosie: t.rpl:6: budget spent\n",
    files: "\
        !rosie: t.rpl: read failed¶
        !rosie: t.rpl: read failed¶
        !rosie: t.rpl: read failed¶
        !rosie: t.rpl: read failed¶
        !rosie: t.rpl: read failed¶
        !rosie: t.rpl: read failed¶",
    input: "",
    writes: Writes {
        out: "\
        !
        t.rpl:5: p includes q \"ab\"¶!
        t.rpl:5: p includes q \"ab\"¶!…
        …!…",
        err: "\
        t.rpl:5: p includes q \"ab\"¶!
        …!…",
    },
};

const LIST: Case = Case {
    run: Run {
        words: "list -f r.rpl",
        input: b"",
        in_pieces: false,
    },
    status: Status::Matched,
    out: b"d alias -\nn capture n\n",
    err: b"",
    files: "\
        !rosie: r.rpl: read failed¶
        !rosie: r.rpl: read failed¶
        !rosie: r.rpl: read failed¶",
    input: "",
    writes: ONE_TEXT,
};

const EXPAND: Case = Case {
    run: Run {
        words: "expand --code -f x.rpl x",
        input: b"",
        in_pieces: false,
    },
    status: Status::Matched,
    out: b"pattern x\n* = (call x)\nx = (capture x (set 61))\n\
        0 call 2\n1 finish\n2 open x\n3 set 61\n4 close\n5 return\n",
    err: b"",
    files: X_RULES,
    input: "",
    writes: ONE_TEXT,
};

/// Only the file `h` contains a line that can be traced: the line of the standard input isn't
/// UTF-8.
const TRACE: Case = Case {
    run: Run {
        words: "trace {\"a\"!\"b\"} h -",
        input: b"\xff\n",
        in_pieces: false,
    },
    status: Status::LineFault,
    out: b"line 1\n0 capture * 1 2\n1 seq 1 2\n2 set 61 1 2\n2 not 2 2\n3 set 62 2 fail\n",
    err: b"rosie: -:1: not UTF-8\n",
    files: "\
        !rosie: h: read failed¶
        !rosie: h: read failed¶
        …!rosie: h: read failed¶",
    input: BAD_LINE,
    writes: TEXT_AND_FAULT,
};

const SAMPLE: Case = Case {
    run: Run {
        words: "sample 1 4",
        input: b"",
        in_pieces: false,
    },
    status: Status::Matched,
    out: b"lines 4\nmatched 3\nbytes 466\n",
    err: b"",
    files: "",
    input: "",
    writes: ONE_TEXT,
};

/// The package is read for the pattern, and again for the line that is tried with it.
const REPL: Case = Case {
    run: Run {
        words: "repl --libpath lib",
        input: b"? p.ab\n> ab1\n- 1\n",
        in_pieces: false,
    },
    status: Status::LineFault,
    out: b"ok 0\n{\"type\":\"p.ab\",\"s\":1,\"e\":3,\"data\":\"ab\"}\n",
    err: b"rosie: (session):3: bad command\n",
    files: "\
        !rosie: lib/p.rpl: read failed¶
        !rosie: lib/p.rpl: read failed¶
        !rosie: lib/p.rpl: read failed¶
        ok 0¶!rosie: lib/p.rpl: read failed¶
        ok 0¶!rosie: lib/p.rpl: read failed¶
        ok 0¶!rosie: lib/p.rpl: read failed¶",
    input: "\
        !rosie: -: read failed¶
        …!rosie: (session):3: bad command¶rosie: -: read failed¶",
    writes: Writes {
        out: "\
        !
        ok 0¶!
        …!
        …!…
        …!…",
        err: "\
        …!
        …!…
        …!…",
    },
};

const COMPILE: Case = Case {
    run: Run {
        words: "compile -f x.rpl \"a\"",
        input: b"",
        in_pieces: false,
    },
    status: Status::Matched,
    out: CODE,
    err: b"",
    files: X_RULES,
    input: "",
    writes: ONE_TEXT,
};

/// Loading the code takes three calls. Then the input `h` is read.
const CODE_FILE: Case = Case {
    run: Run {
        words: "match --code-file x.code -o line h -",
        input: b"\xff\n",
        in_pieces: false,
    },
    status: Status::LineFault,
    out: b"ac\n",
    err: b"rosie: -:1: not UTF-8\n",
    files: "\
        !rosie: x.code: read failed¶
        !rosie: x.code: read failed¶
        !rosie: x.code: read failed¶
        !rosie: h: read failed¶
        !rosie: h: read failed¶
        …!rosie: h: read failed¶",
    input: BAD_LINE,
    writes: TEXT_AND_FAULT,
};

const CLASS: Case = Case {
    run: Run {
        words: "class digit",
        input: b"",
        in_pieces: false,
    },
    status: Status::Matched,
    out: b"30-39\n",
    err: b"",
    files: "",
    input: "",
    writes: ONE_TEXT,
};

/// A refusal is written only to `err`.
const MISSING: Case = Case {
    run: Run {
        words: "match -f none.rpl x",
        input: b"",
        in_pieces: false,
    },
    status: Status::Refused,
    out: b"",
    err: b"rosie: none.rpl: no such file\n",
    files: "!rosie: none.rpl: read failed¶",
    input: "",
    writes: Writes {
        out: "\
        !
        !…",
        err: "\
        !
        !…",
    },
};
