// The words of a server.
ghost use Rattle.std.specs.Prelude.{◌≡◌, ◌≢◌, ◌↔◌, ℕ, [], List, None, Some, IfErr, IfOk, IsTrue, MatchOption, map, codes, slice_get, string_bytes};
ghost use Rattle.clap.specs.Words.{HasKind, Text, all_of, fault_of, first_of, found_of, matches_of, rows_of};
ghost use Rattle.ecr_model.specs.declared.names.SiteId.{SiteId};
ghost use Rattle.ecr_serve.specs.Server.{AreSiteTexts, AreTexts, IsCount, IsNoCount, IsNoServer, IsServer, serve_app, text_of};

use crate::words::{is_same, read_number, read_sites};
use clap::error::ErrorKind;
use clap::{Arg, ArgMatches, Command, Error};
use ecr_model::{Listed, Mem, SiteId};
use std::alloc::Global;

/// The most sites of a server (of this registry).
const MAX_SITES: usize = 64;

/// The words of a server.
#[derive(Drop)]
pub struct ServerWords<'a> {
    /// How many threads serve links.
    pub workers: u32,
    /// How many threads make copies.
    pub copiers: u32,
    pub address: &'a str,
    /// The sites that are served, in their order.
    pub sites: Listed<SiteId>,
}

/// Reads the words of a command: `serve`, `--workers` and `--copiers` with a number each or not, an address, and the
/// words of 1 to 64 different sites. `None` where they are others.
pub(crate) fn read_server<'a>(
    alloc: Global,
    words: &'a [String],
) -> Result<Option<ServerWords<'a>>, Mem>
    ensures { IfOk result (λ o. MatchOption o (IsNoServer (map string_bytes words.now))
        (λ s. IsServer (map string_bytes words.now) s.workers s.copiers s.address.now s.sites)) }
{
    if !is_server(words) {
        return Ok(None);
    }
    let Some(matches) = read_matches(alloc, words)? else {
        return Ok(None);
    };
    read_texts(alloc, &matches)
}

// Whether the first word is the command's.
fn is_server(words: &[String]) -> bool
    ensures { IsTrue result ↔ (slice_get (map string_bytes words.now) 0 ≡ Some (codes "serve")) }
{
    match words.first() {
        Some(word) => is_same(word.as_str(), "serve"),
        None => false,
    }
}

// The texts of the arguments. `None` where the words are none that they take.
fn read_matches<'a>(alloc: Global, words: &'a [String]) -> Result<Option<ArgMatches<'a>>, Mem>
    ensures { IfOk result (λ o. MatchOption o (fault_of serve_app (map string_bytes words.now) ≢ [])
        (λ m. (fault_of serve_app (map string_bytes words.now) ≡ [])
        × (rows_of (found_of m) ≡ matches_of serve_app (map string_bytes words.now)))) }
{
    match parse(alloc, words) {
        Ok(matches) => Ok(Some(matches)),
        Err(error) => match error.kind() {
            ErrorKind::OutOfMemory => Err(Mem),
            _ => Ok(None),
        },
    }
}

// The texts of the arguments, by the kit's parser.
fn parse<'a>(alloc: Global, words: &'a [String]) -> Result<ArgMatches<'a>, Error>
    ensures ok { IfOk result (λ m. (fault_of serve_app (map string_bytes words.now) ≡ [])
        × (rows_of (found_of m) ≡ matches_of serve_app (map string_bytes words.now))) }
    ensures err { IfErr result (HasKind (fault_of serve_app (map string_bytes words.now))) }
{
    let workers = Arg::new(alloc, "workers").long("workers");
    let copiers = Arg::new(alloc, "copiers").long("copiers");
    let address = Arg::new(alloc, "address").required(true);
    let sites = Arg::new(alloc, "sites").required(true).num_args(1..);
    let command = Command::new(alloc, "serve")
        .arg(workers)?
        .arg(copiers)?
        .arg(address)?
        .arg(sites)?;
    command.try_get_matches_from(words)
}

// What the texts of the arguments are.
fn read_texts<'a>(alloc: Global, matches: &ArgMatches<'a>) -> Result<Option<ServerWords<'a>>, Mem>
    ensures { IfOk result (λ o. MatchOption o
        ((workers copiers : ℕ) (address : Text) (sites : List SiteId)
        → ¬ (AreTexts (rows_of (found_of matches.now)) workers copiers address sites))
        (λ s. AreTexts (rows_of (found_of matches.now)) s.workers s.copiers s.address.now s.sites)) }
{
    let Some(workers) = count_in(alloc, matches, "workers", 4, 64)? else {
        return Ok(None);
    };
    let Some(copiers) = count_in(alloc, matches, "copiers", 1, 16)? else {
        return Ok(None);
    };
    let Some(address) = matches.get_str("address") else {
        return Ok(None);
    };
    let Some(sites) = sites_in(alloc, matches)? else {
        return Ok(None);
    };
    Ok(Some(ServerWords {
        workers,
        copiers,
        address,
        sites,
    }))
}

// The number of the option of that name, from 1 to `most`; without it the usual one.
fn count_in(
    alloc: Global,
    matches: &ArgMatches,
    name: &str,
    usual: u32,
    most: u32,
) -> Result<Option<u32>, Mem>
    ensures { IfOk result (λ o. MatchOption o
        (IsNoCount usual most (first_of name.now (rows_of (found_of matches.now))))
        (IsCount usual most (first_of name.now (rows_of (found_of matches.now))))) }
{
    read_count(alloc, matches.get_str(name), usual, most)
}

// The sites behind the address.
fn sites_in(alloc: Global, matches: &ArgMatches) -> Result<Option<Listed<SiteId>>, Mem>
    ensures { IfOk result (λ o. MatchOption o
        ((sites : List SiteId) → ¬ (AreSiteTexts (all_of (codes "sites") (rows_of (found_of matches.now))) sites))
        (AreSiteTexts (all_of (codes "sites") (rows_of (found_of matches.now))))) }
{
    match matches.get_strs("sites") {
        None => Ok(None),
        Some(words) => read_site_texts(alloc, words),
    }
}

// 1 to 64 different sites.
fn read_site_texts(alloc: Global, words: &[&str]) -> Result<Option<Listed<SiteId>>, Mem>
    ensures { IfOk result (λ o. MatchOption o
        ((sites : List SiteId) → ¬ (AreSiteTexts (Some (map (λ w. w.now) words.now)) sites))
        (AreSiteTexts (Some (map (λ w. w.now) words.now)))) }
{
    if words.is_empty() || words.len() > MAX_SITES {
        return Ok(None);
    }
    read_sites(alloc, words)
}

// The number of an option, from 1 to `most`; without a text the usual one.
fn read_count(alloc: Global, text: Option<&str>, usual: u32, most: u32) -> Result<Option<u32>, Mem>
    ensures { IfOk result
        (λ o. MatchOption o (IsNoCount usual most (text_of text.entry)) (IsCount usual most (text_of text.entry))) }
{
    match text {
        None => Ok(Some(usual)),
        Some(text) => read_within(alloc, text, usual, most),
    }
}

// A number in decimal, from 1 to `most`, that stands where another one is usual.
fn read_within(alloc: Global, word: &str, usual: u32, most: u32) -> Result<Option<u32>, Mem>
    ensures { IfOk result
        (λ o. MatchOption o (IsNoCount usual most (Some word.now)) (IsCount usual most (Some word.now))) }
{
    let Some(count) = read_number(alloc, word, u64::from(most))? else {
        return Ok(None);
    };
    if count == 0 {
        return Ok(None);
    }
    Ok(Some(count as u32))
}
