// What a target and a body ask for (Amazon ECR API Reference, "Actions").
ghost use Rattle.std.specs.Prelude.{◌≡◌, IfOk, map, option_map};
ghost use Rattle.serde_json.specs.View.{view};
ghost use Rattle.ecr_json.specs.Thin.{IsThinOf};
ghost use Rattle.ecr_model.specs.requests.Actions.{body_reading, reading, typed_reading, values_reading};
ghost use Rattle.ecr_model.specs.documents.Documents.{document};
ghost use Rattle.ecr_api.specs.Readings.{AreApart, LoadFits, HasReading};
ghost use Rattle.ecr_api.specs.Values.{valued_members};

use crate::actions::{action_of, member_names, members_of};
use crate::calls::made_by;
use crate::members::first_bad;
use crate::values::{Valued, typed_members};
use crate::{ApiRefusal, Asked};
use ecr_json::read_thin;
use ecr_model::{Action, Mem, Refusal, SiteId};
use json::Scratch;
use serde_json::Value;
use std::alloc::Global;

/// What a target and a body ask for, where the request came to `base` of the served sites.
///
/// An unknown target is refused first, then a body that isn't JSON or has a member of a wrong type, at any level, then
/// the first member that is bad. The body is read once, and what isn't asked for in it takes no memory; it takes some
/// for the members of the action, and for the texts of the call.
#[tactic(auto, unfolding(ecr_model::specs::requests::Actions::reading))]
pub fn read_call(
    alloc: Global,
    target: &[u8],
    body: &[u8],
    base: &SiteId,
    served: &[SiteId],
) -> Result<Asked, ApiRefusal>
    ensures exact { HasReading result (reading target.now body.now base.now served.now) }

    // So a desk can be asked for it.
    ensures fits { IfOk result LoadFits }
{
    let mut scratch = Scratch::new(alloc);
    read_call_in(alloc, &mut scratch, target, body, base, served)
}

/// What a target and a body ask for, as `read_call` has it, by a scratch that is kept from body to body.
///
/// The scratch grows to the longest body that it was used for.
#[tactic(auto, unfolding(ecr_model::specs::requests::Actions::reading))]
pub fn read_call_in(
    alloc: Global,
    scratch: &mut Scratch,
    target: &[u8],
    body: &[u8],
    base: &SiteId,
    served: &[SiteId],
) -> Result<Asked, ApiRefusal>
    ensures exact { HasReading result (reading target.now body.now base.now served.now) }

    // So a desk can be asked for it.
    ensures fits { IfOk result LoadFits }
{
    match action_of(target) {
        Some(action) => {
            let document = read_document(alloc, scratch, member_names(action), body)?;
            read_body(alloc, base, served, action, &document)
        }
        None => Err(ApiRefusal::Refused(Refusal::UnknownOperation)),
    }
}

/// What a body asks of an action.
fn read_body(
    alloc: Global,
    base: &SiteId,
    served: &[SiteId],
    action: Action,
    body: &Option<Value>,
) -> Result<Asked, ApiRefusal>
    ensures exact { HasReading result (body_reading base.now served.now action (option_map view body.now)) }
    ensures fits { IfOk result LoadFits }
{
    match body {
        Some(value) => read_value(alloc, base, served, action, value),
        None => Err(ApiRefusal::Refused(Refusal::Serialization)),
    }
}

/// What a JSON value asks of an action.
#[tactic(auto, unfolding(ecr_model::specs::requests::Actions::typed_reading))]
fn read_value(
    alloc: Global,
    base: &SiteId,
    served: &[SiteId],
    action: Action,
    body: &Value,
) -> Result<Asked, ApiRefusal>
    ensures exact { HasReading result (typed_reading base.now served.now action (view body.now)) }
    ensures fits { IfOk result LoadFits }
{
    match typed_members(alloc, members_of(action), body)? {
        Some(values) => read_values(alloc, base, served, action, values.as_slice()),
        None => Err(ApiRefusal::Refused(Refusal::Serialization)),
    }
}

/// What the values of its members ask of an action.
#[tactic(auto, unfolding(ecr_model::specs::requests::Actions::values_reading))]
fn read_values(
    alloc: Global,
    base: &SiteId,
    served: &[SiteId],
    action: Action,
    values: &[Valued<'_>],
) -> Result<Asked, ApiRefusal>
    requires { AreApart (valued_members values.now) }
    ensures exact { HasReading result (values_reading base.now served.now action (valued_members values.now)) }
    ensures fits { IfOk result LoadFits }
{
    match first_bad(base, served, values) {
        Some(parameter) => Err(ApiRefusal::Refused(Refusal::InvalidParameter(parameter))),
        None => Ok(made_by(alloc, base, served, action, values)?),
    }
}

/// The body's JSON reading, thinly by these names; a body that isn't UTF-8 has none.
#[tactic(auto, unfolding(ecr_model::specs::documents::Documents::document))]
fn read_document(
    alloc: Global,
    scratch: &mut Scratch,
    names: &[&str],
    body: &[u8],
) -> Result<Option<Value>, Mem>
    ensures { IfOk result (λ o. IsThinOf (map (λ n. n.now) names.now) (option_map view o) (document body.now)) }
{
    match str::from_utf8(body) {
        Ok(text) => read_thin(alloc, scratch, names, text),
        Err(_) => Ok(None),
    }
}
