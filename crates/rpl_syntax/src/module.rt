// Modules: the statements of a file.
use crate::expr::Expr;
use crate::name::QName;
use rpl_list::List;
use rpl_text::Chars;

/// A rule: a name and its expression.
///
/// # Examples
///
/// ```
/// # use rpl_lexer::lex;
/// # use rpl_parser::parse_module;
/// # use rpl_syntax::Item;
/// let text = "local alias d = [0-9]";
/// let module = parse_module(alloc, text, &lex(alloc, text)?)?;
/// assert!(rt; matches!(module.items.get(0), Some(Item::Binding(rule))
///     if rule.name.as_str() == "d" && rule.at == 0 && rule.local && rule.alias));
/// ```
#[derive(Debug, Drop)]
pub struct Binding {
    /// The name, or `~` for the module's own boundary.
    pub name: Chars,
    /// The byte offset of the statement's first token.
    pub at: usize,
    /// Whether the rule is hidden from importers.
    pub local: bool,
    /// Whether matches of the rule create no node.
    pub alias: bool,
    /// The expression that the name is bound to.
    pub body: Expr,
}

/// The prefix under which the names of an import are visible.
///
/// # Examples
///
/// ```
/// # use rpl_lexer::lex;
/// # use rpl_parser::parse_module;
/// # use rpl_syntax::ImportAs;
/// let text = "import num, net/ip as n";
/// let imports = parse_module(alloc, text, &lex(alloc, text)?)?.imports;
/// assert!(rt; matches!(imports.get(0), Some(num) if matches!(num.name, ImportAs::Last)));
/// assert!(rt; matches!(imports.get(1), Some(ip)
///     if matches!(&ip.name, ImportAs::Named(prefix) if prefix.as_str() == "n")));
/// ```
#[derive(Debug, Drop)]
pub enum ImportAs {
    /// The last name of the path.
    Last,
    /// The name after `as`.
    Named(Chars),
    /// No prefix: `as .`.
    Plain,
}

/// An entry of an import statement.
///
/// # Examples
///
/// ```
/// # use rpl_lexer::lex;
/// # use rpl_parser::parse_module;
/// let text = "import num, net/ip as n";
/// let imports = parse_module(alloc, text, &lex(alloc, text)?)?.imports;
/// assert!(rt; matches!(imports.get(1), Some(ip) if ip.path.as_str() == "net/ip" && ip.at == 12));
/// ```
#[derive(Debug, Drop)]
pub struct Import {
    /// The names of the path, separated by `/`.
    pub path: Chars,
    /// The byte offset of the entry's first token.
    pub at: usize,
    /// The prefix of the imported names.
    pub name: ImportAs,
}

/// Rules in order.
pub type Bindings = List<Binding>;

/// Imports in order.
pub type Imports = List<Import>;

/// A rule, or a block of rules that can call one another.
///
/// # Examples
///
/// ```
/// # use rpl_lexer::lex;
/// # use rpl_parser::parse_module;
/// # use rpl_syntax::Item;
/// let text = "grammar a = \"a\" in b = {a c} c = \"c\" end";
/// let module = parse_module(alloc, text, &lex(alloc, text)?)?;
/// assert!(rt; matches!(module.items.get(0), Some(Item::Block { hidden, visible })
///     if hidden.len() == 1 && visible.len() == 2));
/// ```
#[derive(Debug, Drop)]
pub enum Item {
    Binding(Binding),
    Block {
        /// The rules before `in`, which are visible only in the block.
        hidden: Bindings,
        visible: Bindings,
    },
}

/// Rules and blocks in order.
pub type Items = List<Item>;

/// The content of a file.
///
/// # Examples
///
/// ```
/// # use rpl_lexer::lex;
/// # use rpl_parser::parse_module;
/// let text = "package dates import num day = [0-9]{2} month = [0-9]{2}";
/// let module = parse_module(alloc, text, &lex(alloc, text)?)?;
/// assert!(rt; module.imports.len() == 1 && module.items.len() == 2);
/// assert!(rt; matches!(module.package, Some(name) if name.name.as_str() == "dates"));
/// ```
#[derive(Debug, Drop)]
pub struct Module {
    /// The name in the package statement; its offset is that of the statement's first token.
    pub package: Option<QName>,
    pub imports: Imports,
    pub items: Items,
}
