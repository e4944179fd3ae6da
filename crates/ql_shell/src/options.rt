//! The options of the command line.
ghost use Rattle.std.specs.Prelude.{◌≡◌};
ghost use Rattle.ql_shell.specs.Words as spec;

/// An option that is set or unset.
#[derive(Clone, Copy, Debug, PartialEq, Eq)]
pub enum Flag {
    /// `-bare`: no level opens by itself.
    Bare,
    /// `-fld`: a line with the names of its fields stands before the rows of each SELECT.
    Fld,
}

/// What the options of the command line ask for.
#[derive(Clone, Copy, Debug)]
pub struct Options {
    /// No level opens by itself.
    pub bare: bool,
    /// The names of fields are shown before rows.
    pub with_names: bool,
}

impl Options {
    /// What is asked for where no option stands.
    pub fn none() -> Options
        ensures { result ≡ spec.no_options }
    {
        Options {
            bare: false,
            with_names: false,
        }
    }

    /// These options with one of them set or unset.
    pub fn with(self, flag: Flag, on: bool) -> Options
        ensures { result ≡ spec.with_flag self flag on }
    {
        match flag {
            Flag::Bare => Options {
                bare: on,
                with_names: self.with_names,
            },
            Flag::Fld => Options {
                bare: self.bare,
                with_names: on,
            },
        }
    }
}

/// The flag with a name.
#[tactic(auto, unfolding(crate::specs::Words::flag_named))]
pub fn flag_named(name: &[u8]) -> Option<Flag>
    ensures { result ≡ spec.flag_named name.now }
{
    if name == b"bare".as_slice() {
        return Some(Flag::Bare);
    }
    if name == b"fld".as_slice() {
        return Some(Flag::Fld);
    }
    None
}
