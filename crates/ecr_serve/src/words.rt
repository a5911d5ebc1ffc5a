// The words of a command.
ghost use Rattle.std.specs.Prelude.{◌≡◌, ◌≤◌, ◌++◌, ◌∷◌, [], ◌↔◌, IfOk, IfSome, MatchOption, Contains, IsTrue, List, Some, codes, map, string_bytes};
ghost use Rattle.ecr_model.specs.declared.names.SiteId.{SiteId};
ghost use Rattle.ecr_model.specs.sessions.Commands.{IsNoCommand, IsSession, clock_words};
ghost use Rattle.ecr_serve.specs.Words.{AreSites, IsNew, IsNoNumber, IsNumber};

use ecr_base::read_site;
use ecr_model::{Listed, MAX_MOMENT, Mem, Moment, SiteId};
use std::alloc::Global;
use std::convert::AsStr;

/// The most sites of a session (of this registry).
const MAX_SITES: usize = 64;

/// The words of a session.
#[derive(Drop)]
pub struct SessionWords {
    /// Where the clock stands still, its moment.
    pub fixed: Option<Moment>,
    /// The sites that are served, in their order.
    pub sites: Listed<SiteId>,
}

/// Reads the words of a command: `session`, then `--clock` and a moment in decimal or neither, and then the words of
/// 1 to 64 different sites. `None` where they are others.
pub(crate) fn read_words(alloc: Global, words: &[String]) -> Result<Option<SessionWords>, Mem>
    ensures { IfOk result (λ o. MatchOption o (IsNoCommand (map string_bytes words.now))
        (λ s. IsSession (map string_bytes words.now) s.fixed s.sites)) }
{
    let [command, rest @ ..] = words else {
        return Ok(None);
    };
    if is_same(command.as_str(), "session") {
        read_session(alloc, rest)
    } else {
        Ok(None)
    }
}

/// Reads the words behind `session`.
fn read_session(alloc: Global, words: &[String]) -> Result<Option<SessionWords>, Mem>
    ensures { let all = codes "session" ∷ map string_bytes words.now in IfOk result
        (λ o. MatchOption o (IsNoCommand all) (λ s. IsSession all s.fixed s.sites)) }
{
    let [option, moment, rest @ ..] = words else {
        return read_served(alloc, None, words);
    };
    if is_same(option.as_str(), "--clock") {
        read_fixed(alloc, moment.as_str(), rest)
    } else {
        read_served(alloc, None, words)
    }
}

/// Reads the moment behind `--clock`, and the words behind it.
fn read_fixed(alloc: Global, moment: &str, words: &[String]) -> Result<Option<SessionWords>, Mem>
    ensures { let all = codes "session" ∷ codes "--clock" ∷ moment.now ∷ map string_bytes words.now in IfOk result
        (λ o. MatchOption o (IsNoCommand all) (λ s. IsSession all s.fixed s.sites)) }
{
    let Some(fixed) = read_number(alloc, moment, MAX_MOMENT)? else {
        return Ok(None);
    };
    read_served(alloc, Some(fixed), words)
}

/// Reads the words of 1 to 64 different sites, behind those of the clock.
fn read_served(
    alloc: Global,
    fixed: Option<Moment>,
    words: &[String],
) -> Result<Option<SessionWords>, Mem>
    requires { IfSome fixed (λ moment. moment ≤ MAX_MOMENT) }
    ensures { let all = codes "session" ∷ clock_words fixed ++ map string_bytes words.now in IfOk result
        (λ o. MatchOption o ((sites : List SiteId) → ¬ (IsSession all fixed sites))
        (λ s. (s.fixed ≡ fixed) × IsSession all fixed s.sites)) }
{
    if words.is_empty() || words.len() > MAX_SITES {
        return Ok(None);
    }
    let Some(sites) = read_sites(alloc, words)? else {
        return Ok(None);
    };
    Ok(Some(SessionWords { fixed, sites }))
}

/// Reads the words of sites. `None` where one is no such word, or stands twice.
pub(crate) fn read_sites<S: AsStr>(
    alloc: Global,
    words: &[S],
) -> Result<Option<Listed<SiteId>>, Mem>
    ensures { IfOk result (λ o. MatchOption o
        ((sites : List SiteId) → ¬ (AreSites (map S.text words.now) sites))
        (AreSites (map S.text words.now))) }
{
    let mut sites = Vec::new(alloc);
    for (i, word) in words.iter().enumerate() {
        let Some(site) = read_new(alloc, &words[..i], word.as_str())? else {
            return Ok(None);
        };
        sites.push(site)?;
    }
    Ok(Some(Listed::from_vec(sites)))
}

/// Reads the word of a site that isn't one of the earlier words.
fn read_new<S: AsStr>(alloc: Global, earlier: &[S], word: &str) -> Result<Option<SiteId>, Mem>
    ensures { IfOk result (λ o. MatchOption o
        ((site : SiteId) → ¬ (IsNew (map S.text earlier.now) word.now site))
        (IsNew (map S.text earlier.now) word.now)) }
{
    if has_word(earlier, word) {
        Ok(None)
    } else {
        read_site(alloc, word.as_bytes())
    }
}

/// Whether the word is one of the words.
fn has_word<S: AsStr>(words: &[S], word: &str) -> bool
    ensures { IsTrue result ↔ Contains (map S.text words.now) word.now }
{
    words.iter().any(|other| other.as_str() == word)
}

/// Reads a number of at most `most` in decimal, with no leading zero. `None` where the word is no such number.
pub(crate) fn read_number(alloc: Global, word: &str, most: u64) -> Result<Option<u64>, Mem>
    ensures { IfOk result (λ o. MatchOption o (IsNoNumber most word.now) (λ n. IsNumber most word.now n)) }
{
    let Ok(number) = word.parse::<u64>() else {
        return Ok(None);
    };
    if number > most {
        return Ok(None);
    }
    let written = number.to_string(alloc)?;
    if is_same(written.as_str(), word) {
        Ok(Some(number))
    } else {
        Ok(None)
    }
}

/// Whether the texts are the same.
pub(crate) fn is_same(one: &str, other: &str) -> bool
    ensures { IsTrue result ↔ (one.now ≡ other.now) }
{
    one == other
}
