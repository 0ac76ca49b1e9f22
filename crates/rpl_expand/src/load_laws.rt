// Laws that hold for every set of packages that is built from parsed texts by the steps of loading
// (`Built.antt` in `rpl_names`), so for every set that is loaded, from real files too. The laws
// are proved by induction over the steps of loading, and are stated in `specs/LoadLaws.antt`.
ghost use Rattle.rpl_expand.specs.LoadLaws.{GoalsHaveParts, LoadedIsBound, MacrosAreEquations};
ghost use Rattle.rpl_expand.specs.LoadLaws.{ModulesAreApart, NoNameHasASpace, NoNameTwice};
ghost use Rattle.rpl_expand.specs.LoadLaws.{OwnNamesAreRules, PatternsFit, PatternsResolve};
ghost use Rattle.rpl_expand.specs.LoadLaws.{RulesHaveStatements, ScopesAreOver, StatementsFit};
ghost use Rattle.rpl_expand.specs.LoadLaws.{StatementsResolve, TableIsDistinct};
ghost use Rattle.rpl_expand.specs.LoadLaws.{TablesAreInOrder, TablesHaveParts, ToldIsBuilt};
ghost use Rattle.rpl_expand.specs.LoadLaws.{TopIsThere, TreesAreMade, WalksAreWhole};

/// If the contents of the files are visible to the proof, every set that results from loading roots
/// or from loading a pattern was built by the steps of loading.
pub fn told_is_built()
    ensures { ToldIsBuilt }
{}

/// In a set of packages, no two rules of a module have the same name, and no two modules have the
/// same package name. So no two rules in the set's table, including the two built-in ones, have the
/// same full name.
pub fn names_are_distinct()
    ensures modules { ModulesAreApart }
    ensures table { TableIsDistinct }
{}

/// Each name in a statement of a set is bound to a rule that is in the statement's own block or
/// earlier in the table. The boundary in force in a statement is a rule that comes earlier in the
/// table than the rule that the statement defines. The rules of a block are adjacent in the table.
pub fn loaded_is_bound()
    ensures { LoadedIsBound }
{}

/// Each name in a statement of a set resolves to a rule. Each name in a pattern without a fault
/// also resolves to a rule.
pub fn names_resolve()
    ensures statements { StatementsResolve }
    ensures patterns { PatternsResolve }
{}

/// The expanded table of a set is in order: each rule calls only earlier rules and rules in its own
/// block.
pub fn tables_are_in_order()
    ensures { TablesAreInOrder }
{}

/// Every name in a statement of a loaded set of packages, or in a pattern that is loaded with the
/// set, is bound to a rule in the set's table. The boundary in force in the statement or in the
/// pattern is a rule in the table too, and so is every rule that a rule in the table calls.
pub fn scopes_are_over()
    ensures { ScopesAreOver }
{}

/// If a name in a statement or in the pattern is marked as making a tree, it is bound to a rule
/// whose body is a capture.
pub fn trees_are_made()
    ensures { TreesAreMade }
{}

/// Each name that a statement of a module defines is bound to a rule in the table. If the name is
/// marked as making a tree, the body of that rule is a capture.
pub fn own_names_are_rules()
    ensures { OwnNamesAreRules }
{}

/// Every choice has at least one part, both in the core of any rule in the table and in the core of
/// any pattern that was read. So none of these cores requires more characters than it has nodes
/// (`least_within_nodes`). The least length of a choice without parts is defined as 65,536.
pub fn cores_have_parts()
    ensures table { TablesHaveParts }
    ensures goal { GoalsHaveParts }
{}

/// Every text in a statement of a set or in a pattern consists of at most 1,048,576 characters,
/// which is also the greatest number of bytes in a file. The ranges of every class in a statement
/// or a pattern are in normal form. The full name of a rule has at most twice 1,048,576 characters,
/// plus one for the dot. So each text and each full name can be encoded together with its length.
pub fn what_is_read_fits()
    ensures statements { StatementsFit }
    ensures patterns { PatternsFit }
{}

/// Wherever a macro is applied in a statement of a set or in a pattern over the set, the core of
/// the macro applied to its argument is the core of the expression that `apply` of `rpl_macro`
/// builds from that argument.
pub fn macros_are_equations()
    ensures { MacrosAreEquations }
{}

/// Each part of a set that the definitions look up exists: the top module of the set, and a
/// statement for each rule in its table except the two built-in rules.
pub fn nothing_is_missing()
    ensures top { TopIsThere }
    ensures statements { RulesHaveStatements }
{}

/// The limit on nested files never takes effect, since the limit on modules is reached first.
pub fn walks_are_whole()
    ensures { WalksAreWhole }
{}

/// No name that a pattern may use is listed twice.
pub fn no_name_twice()
    ensures { NoNameTwice }
{}

/// No name that a pattern may use contains a space or a character that sorts before the space. So
/// lines that each begin with such a name and a space sort in the order of the names.
pub fn no_name_has_a_space()
    ensures { NoNameHasASpace }
{}
