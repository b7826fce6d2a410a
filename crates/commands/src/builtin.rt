//! The commands by their names.
#![tactic(auto, using(names::proofs::Compared::compared))]

ghost use Rattle.std.specs.Prelude.{◌≡◌};
ghost use Rattle.commands.specs.Commands as definition;
ghost use Rattle.names.specs.Tables.{found, so_long};

use crate::acting::Acting;
use crate::locals::Local;
use crate::settings::Setting;
use leaving::Exit;
use pure::Pure;

/// The commands that run no script, by their kinds.
#[derive(Clone, Copy, Debug, PartialEq, Eq)]
pub(crate) enum Builtin {
    /// Ends a part of a script, or the run.
    Exit(Exit),
    /// Reads and changes the variables alone.
    Local(Local),
    /// Reads or changes a setting.
    Setting(Setting),
    /// Asks for acts.
    Acting(Acting),
    /// Defines a procedure.
    Proc,
    /// Is a function of its words.
    Text(Pure),
}

impl Builtin {
    /// The command of a name.
    pub(crate) fn read(name: &[u8]) -> Option<Builtin>
        ensures { result ≡ definition.named name.now }
    {
        match of_its_length(name) {
            Some(builtin) => Some(builtin),
            None => match Pure::named(name) {
                Some(text) => Some(Builtin::Text(text)),
                None => None,
            },
        }
    }
}

/// The command of a name, which is searched for only among the names of its length.
fn of_its_length(name: &[u8]) -> Option<Builtin>
    ensures { result ≡ found definition.builtins name.now }
{
    match name.len() {
        3 => of_three(name),
        4 => of_four(name),
        5 => of_five(name),
        6 => of_six(name),
        7 => of_seven(name),
        8 => of_eight(name),
        9 => of_nine(name),
        10 => of_ten(name),
        12 => of_twelve(name),
        _ => None,
    }
}

/// The command of a name of three bytes.
fn of_three(name: &[u8]) -> Option<Builtin>
    ensures { result ≡ found (so_long 3 definition.builtins) name.now }
{
    if name == b"set".as_slice() {
        Some(Builtin::Local(Local::Set))
    } else {
        None
    }
}

/// The command of a name of four bytes.
fn of_four(name: &[u8]) -> Option<Builtin>
    ensures { result ≡ found (so_long 4 definition.builtins) name.now }
{
    match name {
        b"puts" => Some(Builtin::Acting(Acting::Puts)),
        b"exit" => Some(Builtin::Exit(Exit::Exit)),
        b"incr" => Some(Builtin::Local(Local::Incr)),
        b"info" => Some(Builtin::Local(Local::Info)),
        b"proc" => Some(Builtin::Proc),
        b"send" => Some(Builtin::Acting(Acting::Send)),
        b"wait" => Some(Builtin::Acting(Acting::Wait)),
        _ => None,
    }
}

/// The command of a name of five bytes.
fn of_five(name: &[u8]) -> Option<Builtin>
    ensures { result ≡ found (so_long 5 definition.builtins) name.now }
{
    match name {
        b"break" => Some(Builtin::Exit(Exit::Break)),
        b"error" => Some(Builtin::Exit(Exit::Error)),
        b"unset" => Some(Builtin::Local(Local::Unset)),
        b"array" => Some(Builtin::Local(Local::Array)),
        b"spawn" => Some(Builtin::Acting(Acting::Spawn)),
        b"sleep" => Some(Builtin::Acting(Acting::Sleep)),
        b"close" => Some(Builtin::Acting(Acting::Close)),
        _ => None,
    }
}

/// The command of a name of six bytes.
fn of_six(name: &[u8]) -> Option<Builtin>
    ensures { result ≡ found (so_long 6 definition.builtins) name.now }
{
    match name {
        b"return" => Some(Builtin::Exit(Exit::Return)),
        b"append" => Some(Builtin::Local(Local::Append)),
        b"global" => Some(Builtin::Local(Local::Global)),
        b"socket" => Some(Builtin::Acting(Acting::Socket)),
        _ => None,
    }
}

/// The command of a name of seven bytes.
fn of_seven(name: &[u8]) -> Option<Builtin>
    ensures { result ≡ found (so_long 7 definition.builtins) name.now }
{
    if name == b"lappend".as_slice() {
        Some(Builtin::Local(Local::Lappend))
    } else {
        None
    }
}

/// The command of a name of eight bytes.
fn of_eight(name: &[u8]) -> Option<Builtin>
    ensures { result ≡ found (so_long 8 definition.builtins) name.now }
{
    match name {
        b"continue" => Some(Builtin::Exit(Exit::Continue)),
        b"send_log" => Some(Builtin::Acting(Acting::SendLog)),
        b"log_user" => Some(Builtin::Setting(Setting::LogUser)),
        b"log_file" => Some(Builtin::Acting(Acting::LogFile)),
        _ => None,
    }
}

/// The command of a name of nine bytes.
fn of_nine(name: &[u8]) -> Option<Builtin>
    ensures { result ≡ found (so_long 9 definition.builtins) name.now }
{
    if name == b"match_max".as_slice() {
        Some(Builtin::Setting(Setting::MatchMax))
    } else if name == b"send_user".as_slice() {
        Some(Builtin::Acting(Acting::SendUser))
    } else {
        None
    }
}

/// The command of a name of ten bytes.
fn of_ten(name: &[u8]) -> Option<Builtin>
    ensures { result ≡ found (so_long 10 definition.builtins) name.now }
{
    if name == b"send_error".as_slice() {
        Some(Builtin::Acting(Acting::SendError))
    } else {
        None
    }
}

/// The command of a name of twelve bytes.
fn of_twelve(name: &[u8]) -> Option<Builtin>
    ensures { result ≡ found (so_long 12 definition.builtins) name.now }
{
    if name == b"exp_continue".as_slice() {
        Some(Builtin::Exit(Exit::ExpContinue))
    } else if name == b"remove_nulls".as_slice() {
        Some(Builtin::Setting(Setting::RemoveNulls))
    } else {
        None
    }
}
