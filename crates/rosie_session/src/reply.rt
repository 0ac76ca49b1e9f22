// The reply to a command.
ghost use Rattle.std.specs.Prelude.{◌≡◌, false};
ghost use Rattle.rosie_run.specs.Report.{is_stop};

use rosie_run::Mark;

/// The reply to a command: the texts for `out` and `err`, and their mark, which never ends the
/// session.
#[derive(Drop)]
pub(crate) struct Reply {
    pub(crate) out: Vec<u8>,
    pub(crate) err: Vec<u8>,
    pub(crate) mark: Mark,
    ghost goes_on: { is_stop mark ≡ false },
}
