//! The values that are set by the options of a command line.

ghost use Rattle.std.specs.Prelude.{◌≡◌, ◌≢◌, [], true, OnOk, IfOk, IfErr, None};
ghost use Rattle.rosie_words.specs.Values.{path_of};
ghost use Rattle.rosie_words.specs.Roles.{value_fault};
ghost use Rattle.rosie_words.specs.Options.{values_of, command_from};
ghost use Rattle.rosie_words.specs.OptionValues.{put};
ghost use Rattle.rosie_words.specs.declared.fault.UsageFault.TheVariants as E;

use crate::NoMemory;
use crate::command::{Command, What};
use crate::fault::UsageFault;
use crate::settings::Settings;
use crate::table::{CommandName, OptionName};
use crate::value::{bad_value, number_in, style_named};
use rpl_encode::Style;
use rpl_names::{LibPath, Root, Roots};
use rpl_text::Chars;
use std::alloc::Global;

/// The greatest value for `--budget`, in steps.
const MAX_BUDGET: u64 = 1_000_000_000_000;

/// The greatest value for `--limit`, which is also its default.
const MAX_LIMIT: u32 = 10_000;

/// The values that have been set by the options read so far.
#[derive(Drop)]
pub(crate) struct OptionValues {
    pub(crate) roots: Roots,
    pub(crate) folders: LibPath,
    pub(crate) style: Option<Style>,
    pub(crate) whole: bool,
    pub(crate) all: bool,
    pub(crate) fixed: bool,
    pub(crate) budget: Option<u64>,
    pub(crate) steps: bool,
    pub(crate) code: bool,
    pub(crate) limit: u32,
    pub(crate) code_file: Option<Chars>,
}

/// Returns the folders of a library path, or `None` if the name of a folder is empty.
fn folders(alloc: Global, value: &str) -> Result<Option<LibPath>, NoMemory>
    ensures { IfOk result (λ o. o ≡ path_of value.now) }
{
    let mut folders = LibPath::new(alloc);
    for folder in value.split(':') {
        if folder.is_empty() {
            return Ok(None);
        }
        folders.push(Chars::from_str(alloc, folder)?)?;
    }
    Ok(Some(folders))
}

impl OptionValues {
    /// Returns the values before any option is read.
    pub(crate) fn new(alloc: Global) -> Result<OptionValues, NoMemory>
        ensures { IfOk result (λ s. s ≡ values_of []) }
    {
        let mut folders = LibPath::new(alloc);
        folders.push(Chars::from_str(alloc, ".")?)?;
        Ok(OptionValues {
            roots: Roots::new(alloc),
            folders,
            style: None,
            whole: false,
            all: false,
            fixed: false,
            budget: None,
            steps: false,
            code: false,
            limit: MAX_LIMIT,
            code_file: None,
        })
    }

    /// Sets the value of one more option. If the value is malformed, nothing changes.
    pub(crate) fn set(
        &mut self,
        alloc: Global,
        option: OptionName,
        value: &str,
    ) -> Result<(), UsageFault>
        ensures fits { OnOk result (value_fault option value.now ≡ None) }
        ensures set { OnOk result (self.new ≡ put option value.now self.old) }
        ensures fault { IfErr result (λ e. e ≢ E.NoMemory → value_fault option value.now ≡ Some e) }
    {
        match option {
            OptionName::File => self.roots.push(Root::File(Chars::from_str(alloc, value)?))?,
            OptionName::Rpl => self
                .roots
                .push(Root::Given(Chars::from_str(alloc, value)?))?,
            OptionName::LibPath => match folders(alloc, value)? {
                Some(path) => self.folders = path,
                None => return Err(bad_value(alloc, value)),
            },
            OptionName::Output => match style_named(value) {
                Some(style) => self.style = Some(style),
                None => return Err(bad_value(alloc, value)),
            },
            OptionName::WholeFile => self.whole = true,
            OptionName::All => self.all = true,
            OptionName::FixedStrings => self.fixed = true,
            OptionName::Budget => match number_in(value, 1, MAX_BUDGET) {
                Some(budget) => self.budget = Some(budget),
                None => return Err(bad_value(alloc, value)),
            },
            OptionName::Steps => self.steps = true,
            OptionName::Code => self.code = true,
            OptionName::Limit => match number_in(value, 1, u64::from(MAX_LIMIT)) {
                Some(limit) => self.limit = limit as u32,
                None => return Err(bad_value(alloc, value)),
            },
            OptionName::CodeFile => self.code_file = Some(Chars::from_str(alloc, value)?),
        }
        Ok(())
    }

    /// Returns the given command with the values of its options.
    pub(crate) fn into_command(self, command: CommandName, what: What) -> Command
        ensures { result ≡ command_from self command what }
    {
        let usual = match command {
            CommandName::Grep => Style::Line,
            _ => Style::Json,
        };
        Command {
            what,
            roots: self.roots,
            folders: self.folders,
            settings: Settings {
                style: self.style.unwrap_or(usual),
                whole: self.whole,
                all: self.all,
                steps: self.steps,
                budget: self.budget,
            },
            fixed: self.fixed,
            code: self.code,
            limit: self.limit,
            code_file: self.code_file,
        }
    }
}
