ghost use Rattle.std.specs.Prelude.{◌≡◌, ◌≤◌, [], IfOk};
ghost use Rattle.ecr_model.specs.registry.Journals.{past};

use crate::{Registered, SiteState};
use ecr_model::{Limits, Name, SharedText, SiteId};
use std::alloc::{AllocError, Global};
use std::test::Fail;

#[test]
fn names_are_registered_up_to_the_limit(rt: HostRuntime) -> Result<(), Fail> {
    let alloc = rt.alloc();
    let mut state = two_names(alloc)?;
    assert_eq!(rt; state.entries(), 2);
    let third = state.register(6, 0, &named(alloc, "c1")?)?;
    let second = state.register(7, 0, &named(alloc, "a1")?)?;
    assert_eq!(rt; third, Registered::Full { limit: 2, count: 2 });
    assert_eq!(rt; second, Registered::Known);
    assert_eq!(rt; (state.entries(), state.count()), (2, 2));
    for (text, known) in [("a1", true), ("b1", true), ("c1", false), ("a", false)].iter() {
        assert_eq!(rt; state.knows(&named(alloc, text)?), *known, "{text}");
    }
    Ok(())
}

#[test]
fn a_page_has_the_names_from_its_place_on(rt: HostRuntime) -> Result<(), Fail> {
    let alloc = rt.alloc();
    let state = two_names(alloc)?;
    let pages = [
        (0, 1, "a1,"),
        (1, 5, "b1,"),
        (0, 2, "a1,b1,"),
        (0, 0, ""),
        (2, 1, ""),
        (9_223_372_036_854_775_808, 1000, ""),
        (18_446_744_073_709_551_615, 4_294_967_295, ""),
    ];
    for (from, max, expected) in pages.iter() {
        assert_eq!(rt; page(alloc, &state, *from, *max)?.as_str(), *expected);
    }
    Ok(())
}

#[test]
fn names_come_in_the_order_of_their_bytes(rt: HostRuntime) -> Result<(), Fail> {
    let alloc = rt.alloc();
    let state = scrambled(alloc)?;
    assert_eq!(rt; (state.entries(), state.count()), (1000, 1000));
    assert_eq!(rt; page(alloc, &state, 0, 4)?.as_str(), "a0,a1,a10,a100,");
    assert_eq!(rt; page(alloc, &state, 111, 3)?.as_str(), "a199,a2,a20,");
    assert_eq!(rt; page(alloc, &state, 998, 9)?.as_str(), "a998,a999,");
    let names = state.names(alloc, 0, 1000)?;
    assert_eq!(rt; names.len(), 1000);
    assert!(rt; names.is_sorted());
    Ok(())
}

/// `a0` to `a999`, in the order of their multiples of 7, which has no divisor in common with 1000.
fn scrambled(alloc: Global) -> Result<SiteState, AllocError> {
    let mut state = state(alloc, 1000)?;
    for turn in 0..1000_u64 {
        let text = format!(in alloc; "a{}", turn * 7 % 1000)?;
        let name = named(alloc, text.as_str())?;
        state.register(turn, 0, &name)?;
    }
    Ok(state)
}

/// A site with a limit of two names: `b1` at the ticket 3, then `a1` at the ticket 5.
fn two_names(alloc: Global) -> Result<SiteState, AllocError>
    ensures { IfOk result (λ s. past s.journal ≤ 6) }
{
    let mut state = state(alloc, 2)?;
    state.register(3, 40, &named(alloc, "b1")?)?;
    state.register(5, 41, &named(alloc, "a1")?)?;
    Ok(state)
}

/// A site with no name, and this limit of names.
fn state(alloc: Global, names: u64) -> Result<SiteState, AllocError>
    ensures { IfOk result (λ s. s.journal ≡ []) }
{
    let site = SiteId {
        region: SharedText::copy_of(alloc, b"us-east-1")?,
        account: SharedText::copy_of(alloc, b"111122223333")?,
    };
    let mut limits = Limits::standard();
    limits.names = names;
    Ok(SiteState::new(alloc, site, Vec::new(alloc), limits))
}

fn named(alloc: Global, text: &str) -> Result<Name, AllocError> {
    let text = SharedText::copy_of(alloc, text.as_bytes())?;
    Ok(Name { text })
}

/// The names of the page, each with a comma after it.
fn page(alloc: Global, state: &SiteState, from: u64, max: u32) -> Result<String, AllocError> {
    let mut all = String::new(alloc);
    for name in state.names(alloc, from, max)?.iter() {
        match str::from_utf8(name.text.as_bytes()) {
            Ok(text) => all.push_str(text)?,
            Err(_) => all.push('?')?,
        }
        all.push(',')?;
    }
    Ok(all)
}
