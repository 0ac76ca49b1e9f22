// The order of statements: the module as parsed so far, and which statements are allowed next.
ghost use Rattle.std.specs.Prelude.{◌≡◌, Some};
ghost use Rattle.rpl_parser.specs.inside.Gives.{Gives};
ghost use Rattle.rpl_parser.specs.Pieces.{closes_later};
ghost use Rattle.rpl_parser.specs.Tokens.{AllStand, tokens_of};
ghost use Rattle.rpl_parser.specs.Walks.{begun, versioned, packaged, imported, ruled, bound};
ghost use Rattle.rpl_parser.specs.Walks.{opened, split, shut};
ghost use Rattle.rpl_parser.specs.Walks.{closed, place, finish};
ghost use Rattle.rpl_parser.specs.Answers.{Answers};
ghost use Rattle.rpl_parser.specs.inside.Walked.{walk_of, inside};
ghost use Rattle.rpl_parser.specs.inside.Statements.{line_seen};
ghost use Rattle.rpl_syntax.specs.Modules.{rule_of, said};

use crate::fault::{ParseFault, ParseKind};
use crate::line::Line;
use crate::piece::closes;
use crate::refusal::Refusal;
use rpl_lexer::Token;
use rpl_syntax::{Binding, Bindings, Imports, Item, Items, Module, QName};
use std::alloc::Global;
use std::mem;

/// The position in a module, which determines the statements that are allowed next.
#[derive(Clone, Copy)]
pub enum Stage {
    /// Before the first statement.
    Begun,
    /// After the version.
    Versioned,
    /// After the package statement or an import.
    Packaged,
    /// After a binding or a block.
    Ruled,
    /// In a block, with no `in` so far.
    InBlock,
    /// In a block, after its `in`.
    BehindIn,
}

/// A version, and the byte offset of its statement.
#[derive(Clone, Copy)]
pub struct Numbered {
    pub at: usize,
    pub major: u64,
    pub minor: u64,
}

/// The tokens of a text that have not been read yet.
#[derive(Clone, Copy)]
pub struct Rest<'a> {
    pub text: &'a str,
    pub tokens: &'a [Token],
}

/// The module as parsed so far.
#[derive(Drop)]
pub struct Walk {
    stage: Stage,
    version: Option<Numbered>,
    name: Option<QName>,
    imports: Imports,
    items: Items,
    hidden: Bindings,
    rules: Bindings,
}

impl Walk {
    /// Returns an empty module. Does not allocate.
    pub fn new(alloc: Global) -> Walk
        ensures { walk_of result ≡ begun }
    {
        Walk {
            stage: Stage::Begun,
            version: None,
            name: None,
            imports: Imports::new(alloc),
            items: Items::new(alloc),
            hidden: Bindings::new(alloc),
            rules: Bindings::new(alloc),
        }
    }

    fn version(&mut self, version: Numbered) -> Result<(), Refusal>
        ensures { Gives (λ _. walk_of self.new) result
            (versioned (walk_of self.old) self.old.stage version) }
    {
        match self.stage {
            Stage::Begun => {
                self.stage = Stage::Versioned;
                self.version = Some(version);
                Ok(())
            }
            _ => Err(Refusal::Syntax),
        }
    }

    fn package(&mut self, name: QName) -> Result<(), Refusal>
        ensures { Gives (λ _. walk_of self.new) result
            (packaged (walk_of self.old) self.old.stage name) }
    {
        match self.stage {
            Stage::Begun | Stage::Versioned => {
                self.stage = Stage::Packaged;
                self.name = Some(name);
                Ok(())
            }
            _ => Err(Refusal::Syntax),
        }
    }

    fn import(&mut self, imports: Imports) -> Result<(), Refusal>
        ensures { Gives (λ _. walk_of self.new) result
            (imported (walk_of self.old) self.old.stage imports) }
    {
        match self.stage {
            Stage::Ruled | Stage::InBlock | Stage::BehindIn => Err(Refusal::Syntax),
            Stage::Begun | Stage::Versioned | Stage::Packaged => {
                self.imports.append(imports)?;
                self.stage = Stage::Packaged;
                Ok(())
            }
        }
    }

    fn bind_in_block(&mut self, rule: Binding) -> Result<(), Refusal>
        ensures { Gives (λ _. walk_of self.new) result
            (Some (inside (walk_of self.old) (rule_of rule))) }
    {
        self.rules.push(rule)?;
        Ok(())
    }

    fn bind_outside(&mut self, rule: Binding) -> Result<(), Refusal>
        ensures { Gives (λ _. walk_of self.new) result
            (Some (ruled (walk_of self.old) (rule_of rule))) }
    {
        self.items.push(Item::Binding(rule))?;
        self.stage = Stage::Ruled;
        Ok(())
    }

    fn bind(&mut self, rule: Binding) -> Result<(), Refusal>
        ensures { Gives (λ _. walk_of self.new) result
            (bound (walk_of self.old) self.old.stage (rule_of rule)) }
    {
        match self.stage {
            Stage::InBlock | Stage::BehindIn if rule.local => Err(Refusal::Syntax),
            Stage::InBlock | Stage::BehindIn => self.bind_in_block(rule),
            Stage::Begun | Stage::Versioned | Stage::Packaged | Stage::Ruled => {
                self.bind_outside(rule)
            }
        }
    }

    fn open(&mut self, alloc: Global, closes: bool) -> Result<(), Refusal>
        ensures { Gives (λ _. walk_of self.new) result
            (opened (walk_of self.old) self.old.stage closes) }
    {
        match self.stage {
            Stage::InBlock | Stage::BehindIn => Err(Refusal::Syntax),
            Stage::Begun | Stage::Versioned | Stage::Packaged | Stage::Ruled => {
                if !closes {
                    return Err(Refusal::Syntax);
                }
                self.stage = Stage::InBlock;
                self.hidden = Bindings::new(alloc);
                self.rules = Bindings::new(alloc);
                Ok(())
            }
        }
    }

    fn split(&mut self, alloc: Global) -> Result<(), Refusal>
        ensures { Gives (λ _. walk_of self.new) result (split (walk_of self.old) self.old.stage) }
    {
        match self.stage {
            Stage::InBlock => {
                self.stage = Stage::BehindIn;
                self.hidden = mem::replace(&mut self.rules, Bindings::new(alloc));
                Ok(())
            }
            _ => Err(Refusal::Syntax),
        }
    }

    fn shut(&mut self, alloc: Global) -> Result<(), Refusal>
        ensures { Gives (λ _. walk_of self.new) result (Some (shut (walk_of self.old))) }
    {
        let hidden = mem::replace(&mut self.hidden, Bindings::new(alloc));
        let visible = mem::replace(&mut self.rules, Bindings::new(alloc));
        self.items.push(Item::Block { hidden, visible })?;
        self.stage = Stage::Ruled;
        Ok(())
    }

    fn close(&mut self, alloc: Global) -> Result<(), Refusal>
        ensures { Gives (λ _. walk_of self.new) result (closed (walk_of self.old) self.old.stage) }
    {
        match self.stage {
            Stage::InBlock | Stage::BehindIn => self.shut(alloc),
            _ => Err(Refusal::Syntax),
        }
    }

    /// Adds a statement that begins at the byte offset `at`. The tokens in `rest`, which follow the
    /// statement, show whether a block that the statement opens is closed later.
    pub fn place(
        &mut self,
        alloc: Global,
        at: usize,
        line: Line,
        rest: Rest<'_>,
    ) -> Result<(), Refusal>
        requires { AllStand rest.text.now rest.tokens.now }
        ensures { Gives (λ _. walk_of self.new) result
            (place (walk_of self.old) at
            (closes_later (tokens_of rest.entry.text.now rest.entry.tokens.now))
            (line_seen line)) }
    {
        match line {
            Line::Version { major, minor } => self.version(Numbered { at, major, minor }),
            Line::Package(name) => self.package(QName {
                prefix: None,
                name,
                at,
            }),
            Line::Imports(imports) => self.import(imports),
            Line::Binds {
                local,
                alias,
                name,
                body,
            } => self.bind(Binding {
                name,
                at,
                local,
                alias,
                body,
            }),
            Line::Opens => self.open(alloc, closes(rest.text, rest.tokens)),
            Line::Splits => self.split(alloc),
            Line::Closes => self.close(alloc),
        }
    }

    /// Returns the module, or a fault if the version of the module is not supported.
    pub fn finish(self) -> Result<Module, ParseFault>
        ensures { Answers said result (finish (walk_of self)) }
    {
        match self.version {
            Some(version) if version.major != 1 || version.minor > 4 => Err(ParseFault {
                at: version.at,
                kind: ParseKind::Version,
            }),
            _ => Ok(Module {
                package: self.name,
                imports: self.imports,
                items: self.items,
            }),
        }
    }
}
