// Values that are seldom there.
ghost use Rattle.std.specs.Prelude.{◌≡◌, Option, None, Some, IfOk, option_map, box_value};

use crate::Mem;
use std::alloc::Global;
use std::marker::Model;

/// A value that is seldom there, and stands elsewhere: here it takes 16 bytes, whatever its size. Contracts see the
/// option.
#[derive(Drop)]
pub struct Rare<T> {
    value: Option<Box<T>>,
}

impl<T> Model for Rare<T> {
    ghost Value = { Option T };

    ghost view = { λ r. option_map box_value r.value };
}

impl<T> Rare<T> {
    /// No value, which takes no memory.
    pub fn none() -> Rare<T>
        ensures empty { result ≡ None }
    {
        Rare { value: None }
    }

    /// The value, where it is there.
    pub fn get(&self) -> Option<&T>
        ensures content { option_map (λ v. v.now) result ≡ self.now }
    {
        match &self.value {
            Some(value) => Some(&**value),
            None => None,
        }
    }
}

impl<T: Drop> Rare<T> {
    /// That value.
    pub fn some(alloc: Global, value: T) -> Result<Rare<T>, Mem>
        ensures kept { IfOk result (λ r. r ≡ Some value) }
    {
        match Box::new(alloc, value) {
            Ok(value) => Ok(Rare { value: Some(value) }),
            Err(_) => Err(Mem),
        }
    }
}

#[cfg(test)]
mod tests {
    use crate::Rare;
    use std::mem::size_of;
    use std::test::Fail;

    #[test]
    fn a_rare_value_is_there(rt: HostRuntime) -> Result<(), Fail> {
        let rare = Rare::some(rt.alloc(), 7u64)?;
        assert_eq!(rt; rare.get().copied(), Some(7));
        let none: Rare<u64> = Rare::none();
        assert_eq!(rt; none.get().copied(), None);
        assert_eq!(rt; size_of::<Rare<[u64; 4]>>(), 16);
        Ok(())
    }
}
