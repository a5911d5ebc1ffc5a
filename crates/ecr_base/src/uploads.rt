// The ids of uploads (of this registry).
ghost use Rattle.std.specs.Prelude.{◌≡◌, IfOk, string_bytes};
ghost use Rattle.ecr_model.specs.names.Uploads.{upload_id};

use ecr_model::Mem;
use std::alloc::Global;

/// The id of an upload's number: 32 lower-case hexadecimal digits in groups of 8, 4, 4, 4 and 12, as
/// `00000000-0000-0000-0000-000000000001`.
#[tactic(auto, unfolding(ecr_model::specs::names::Uploads::upload_id, hex::specs::Hex::encode_with))]
pub fn write_upload_id(alloc: Global, number: u64) -> Result<String, Mem>
    ensures exact { IfOk result (λ s. string_bytes s ≡ upload_id number) }
{
    let bytes = number.to_be_bytes();
    let high = hex::encode(alloc, &bytes[..2])?;
    let low = hex::encode(alloc, &bytes[2..])?;
    let mut id = String::from_str(alloc, "00000000-0000-0000-")?;
    id.push_str(high.as_str())?;
    id.push_str("-")?;
    id.push_str(low.as_str())?;
    Ok(id)
}
