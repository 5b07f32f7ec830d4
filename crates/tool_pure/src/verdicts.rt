//! `who`: from a configuration and a caller to a verdict.
ghost use Rattle.std.specs.Prelude.{◌≡◌, ◌++◌, OnOk, IfOk, IfErr, Ok, option_map, string_bytes};
ghost use Rattle.report.specs.Outputs.{printed_of};
ghost use Rattle.tool_pure.specs.Who.{AnswersWho, StopsWho, verdict_of, verdict_text, connect_text, denial_status};

use crate::callers::parse_caller;
use crate::configuration::settings;
use crate::stops::{DENIED, Stop};
use crate::stream::say;
use policy::{Class, Op, Rule, class, decide};
use report::{Failure, print, push_denial};
use std::alloc::{AllocError, Global};
use std::io::Write;

/// What `who` prints of a caller.
#[derive(Clone, Copy, PartialEq, Eq, Debug)]
pub struct Verdict {
    /// The caller's class.
    pub class: Class,
    /// The first rule that forbids the caller a plain request, if one does.
    pub denial: Option<Rule>,
}

impl Verdict {
    /// The exit status: 0 if the caller may connect, else 4.
    fn status(&self) -> u8
        ensures { result ≡ denial_status self.now.denial }
    {
        match self.denial {
            None => 0,
            Some(_) => DENIED,
        }
    }

    /// The two lines of the verdict.
    fn text(&self, alloc: Global) -> Result<String, AllocError>
        ensures { IfOk result (λ text. string_bytes text ≡ verdict_text self.now) }
    {
        let mut text = String::from_str(alloc, "class: ")?;
        text.push_str(self.class.as_str())?;
        text.push_str("\n")?;
        push_connect(self.denial, &mut text)?;
        Ok(text)
    }
}

/// Appends the line that says whether a caller may connect.
fn push_connect(denial: Option<Rule>, text: &mut String) -> Result<(), AllocError>
    ensures { OnOk result (string_bytes text.new ≡ string_bytes text.old ++ connect_text denial) }
{
    match denial {
        None => text.push_str("connect: yes\n"),
        Some(rule) => push_denial(text, rule),
    }
}

/// The class of a caller, and the first rule that forbids them a plain request.
///
/// ```rust
/// use policy::{Class, Rule};
///
/// let verdict = tool::judge(alloc, b"allowed-users = []\n", Some("bob"), Some("users"))?;
/// assert_eq!(rt; verdict.class, Class::Stranger);
/// assert_eq!(rt; verdict.denial, Some(Rule::Connect));
/// ```
///
/// # Errors
///
/// `BadConfig` with the first key word that applies, else `BadCaller` if no user is named or a
/// name isn't plain; `Memory` if memory was refused.
pub fn judge(
    alloc: Global,
    config: &[u8],
    user: Option<&str>,
    group: Option<&str>,
) -> Result<Verdict, Stop>
    ensures ok { IfOk result
        (λ v. verdict_of config.now (option_map (λ s. s.now) user.entry) (option_map (λ s. s.now) group.entry) ≡ Ok v) }
    ensures err { IfErr result (StopsWho (verdict_of config.now (option_map (λ s. s.now) user.entry) (option_map
        (λ s. s.now) group.entry))) }
{
    let config = settings(alloc, config)?;
    let caller = parse_caller(alloc, user, group)?;
    let class = class(&config, &caller);
    let denial = decide(class, &caller, &Op::Plain);
    Ok(Verdict { class, denial })
}

/// Prints the class of a caller and whether they may connect, and returns the exit status.
///
/// Everything goes to the one writer: the two lines with status 0 or 4, or the one line of a bad
/// configuration or caller with status 3, or of refused memory with status 1. If the writer
/// fails, the status is 1 and nothing more is written: the writer holds a prefix of these lines.
///
/// ```rust
/// let mut output = Vec::new(alloc);
/// assert_eq!(rt; tool::who(alloc, b"", Some("root"), None, &mut output), 0);
/// assert_eq!(rt; output.as_slice(), b"class: trusted\nconnect: yes\n".as_slice());
/// ```
pub fn who<W: Write>(
    alloc: Global,
    config: &[u8],
    user: Option<&str>,
    group: Option<&str>,
    out: &mut W,
) -> u8
    ensures { AnswersWho (verdict_of config.now (option_map (λ s. s.now) user.entry) (option_map
        (λ s. s.now) group.entry)) (printed_of W.contents out.old out.new result) }
{
    match judge(alloc, config, user, group) {
        Ok(verdict) => match verdict.text(alloc) {
            Ok(text) => print(text.as_str(), verdict.status(), out),
            Err(_) => say(Stop::Failed(Failure::Memory), out),
        },
        Err(stop) => say(stop, out),
    }
}
