//! The commands that this profile leaves out.

ghost use Rattle.std.specs.Prelude.{◌≡◌};
ghost use Rattle.std.specs.List.{list_any};
ghost use Rattle.std.specs.Str.{bytes_eq};
ghost use Rattle.commands.specs.LeftOut as definition;

/// Commands of Tcl and of Expect that a script may know and that are not here.
const LEFT_OUT: [&str; 26] = [
    "interact",
    "expect_user",
    "expect_tty",
    "expect_background",
    "trap",
    "fork",
    "overlay",
    "disconnect",
    "system",
    "stty",
    "parity",
    "exp_internal",
    "debug",
    "exp_pid",
    "exp_version",
    "uplevel",
    "upvar",
    "regexp",
    "regsub",
    "format",
    "scan",
    "after",
    "source",
    "clock",
    "rename",
    "trace",
];

/// Whether a name is that of a command that this profile leaves out.
pub(crate) fn is_left_out(name: &[u8]) -> bool
    ensures { result ≡ definition.is_left_out name.now }
{
    let words: [&str; 26] = LEFT_OUT;
    is_among(words.as_slice(), name)
}

/// Whether a name is one of `names`.
fn is_among(names: &[&str], name: &[u8]) -> bool
    ensures { result ≡ list_any (λ known. bytes_eq known.now name.now) names.now }
{
    for known in names {
        if known.as_bytes() == name {
            return true;
        }
    }
    false
}
