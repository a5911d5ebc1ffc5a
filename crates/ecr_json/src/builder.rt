// JSON objects that are written (RFC 8259, section 4).
ghost use Rattle.std.specs.Prelude.{◌≡◌, ◌≤◌, Some, IfOk, OnOk, OnErr, false};
ghost use Rattle.serde_json.specs.Data.{string, object, no_members, depth};
ghost use Rattle.serde_json.specs.Read.{read, max_depth};
ghost use Rattle.serde_json.specs.View.{view};
ghost use Rattle.serde_json.specs.Written.{compact_text, has_float, IsInOrder};
ghost use Rattle.ecr_json.specs.Objects.{unsigned_value, with_member, IsObject};

use crate::Mem;
use serde_json::{Map, Value};
use std::alloc::Global;
use std::marker::Model;

/// A JSON object that grows by its members. Contracts see the value that it is.
#[derive(Drop)]
pub struct Builder {
    alloc: Global,
    object: Value,
}

impl Model for Builder {
    ghost use Rattle.std.specs.Coded.{codes};
    ghost use Rattle.serde_json.specs.contracts.value.Value as row;
    ghost use Rattle.serde_json.specs.declared.value.Value.{Value as Json};
    ghost use Rattle.serde_json.specs.View.{view as data_of};
    ghost use Rattle.ecr_json.specs.Objects.{IsObject};

    ghost Value = { Json };

    ghost coded = { Prim.hlevel (codes, row.the_row.coded) };

    ghost view = { λ b. b.object };

    ghost invariant = { λ b. IsObject (data_of b.object) };
}

impl Builder {
    /// The object without members, which takes no memory.
    pub fn new(alloc: Global) -> Builder
        ensures empty { view result ≡ object no_members }
    {
        Builder {
            alloc,
            object: Value::Object(Map::new(alloc)),
        }
    }

    /// Puts a member that is a text, in place of one of its name. After an `Err` the object is as before.
    pub fn put_text(&mut self, member: &str, text: &str) -> Result<(), Mem>
        ensures ok { OnOk result (view self.new ≡ with_member member.now (string text.now) (view self.old)) }
        ensures err { OnErr result (view self.new ≡ view self.old) }
    {
        let value = Value::try_from_str(self.alloc, text)?;
        self.put_value(member, value)
    }

    /// Puts a member that is a whole number, in place of one of its name. After an `Err` the object is as before.
    pub fn put_whole(&mut self, member: &str, number: u64) -> Result<(), Mem>
        ensures ok { OnOk result (view self.new ≡ with_member member.now (unsigned_value number) (view self.old)) }
        ensures err { OnErr result (view self.new ≡ view self.old) }
    {
        self.put_value(member, Value::from(number))
    }

    /// Puts a member, in place of one of its name. After an `Err` the object is as before.
    pub fn put_value(&mut self, member: &str, value: Value) -> Result<(), Mem>
        ensures ok { OnOk result (view self.new ≡ with_member member.now (view value) (view self.old)) }
        ensures err { OnErr result (view self.new ≡ view self.old) }
    {
        put_member(&mut self.object, self.alloc, member, value)
    }

    /// The object's text without spaces, its members in byte order of their names.
    ///
    /// Which digits a number that isn't whole gets is not said.
    pub fn bytes(&self, alloc: Global) -> Result<Vec<u8>, Mem>
        ensures text { IfOk result (λ b. has_float (view self.now) ≡ false → b.items ≡ compact_text (view self.now)) }
        ensures order { IfOk result (λ b. IsInOrder b.items (view self.now)) }
        ensures reads_back { IfOk result
            (λ b. depth (view self.now) ≤ max_depth → read b.items ≡ Some (view self.now)) }
    {
        self.object.to_vec(alloc)
    }
}

/// Puts a member into the object that the value is.
fn put_member(object: &mut Value, alloc: Global, member: &str, value: Value) -> Result<(), Mem>
    requires { IsObject (view object.old) }
    ensures ok { OnOk result (view object.new ≡ with_member member.now (view value) (view object.old)) }
    ensures err { OnErr result (view object.new ≡ view object.old) }
{
    match object {
        Value::Object(members) => serde_json::put(members, alloc, member, value),
        _ => Ok(()),
    }
}
