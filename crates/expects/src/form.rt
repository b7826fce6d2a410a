//! The three commands that take branches (expect(1), expect, expect_before and expect_after).

ghost use Rattle.std.specs.Prelude.{◌≡◌, Some, option_map};
ghost use Rattle.expects.specs.View.{form_of};
ghost use Rattle.expects.specs.Words as definition;

use dialog::Side;

/// `expect`, which chooses among its branches, or a command whose branches stand on a side, before
/// or after those of each `expect`.
#[derive(Clone, Copy, Debug, PartialEq, Eq)]
pub enum Form {
    /// `expect`.
    Waits,
    /// `expect_before` or `expect_after`.
    Stands(Side),
}

impl Form {
    /// The command of this name, if it is one of the three.
    pub fn read(name: &[u8]) -> Option<Form>
        ensures { option_map form_of result ≡ definition.named name.now }
    {
        if name == b"expect".as_slice() {
            Some(Form::Waits)
        } else if name == b"expect_before".as_slice() {
            Some(Form::Stands(Side::Before))
        } else if name == b"expect_after".as_slice() {
            Some(Form::Stands(Side::After))
        } else {
            None
        }
    }

    /// The name of the command.
    pub fn name(self) -> &'static [u8]
        ensures { definition.named result.now ≡ Some (form_of self) }
    {
        match self {
            Form::Waits => b"expect",
            Form::Stands(Side::Before) => b"expect_before",
            Form::Stands(Side::After) => b"expect_after",
        }
    }

    /// Whether the branches of the command stand.
    pub(crate) fn stands(self) -> bool
        ensures { result ≡ definition.stands (form_of self) }
    {
        matches!(self, Form::Stands(_))
    }
}
