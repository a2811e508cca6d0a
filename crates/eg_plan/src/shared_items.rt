// Values in a row that several may own, and that contracts see as the list of them.
ghost use Rattle.std.specs.Prelude.{◌≡◌, IfOk, IfSome};

use eg_base::NoMemory;
use std::marker::Model;
use std::rc::RcSlice;

/// Values in a row, which several may own: neither to make one nor to share it is meant to copy a value. Room
/// is kept for as many as there are. Contracts see the list of them, and none says what is really shared.
#[derive(Drop)]
pub struct SharedItems<T: Copy> {
    items: RcSlice<T>,
}

impl<T: Copy> Model for SharedItems<T> {
    ghost use Rattle.std.specs.Prelude.{List};
    ghost use Rattle.std.specs.Rc.{rc_slice_items};

    ghost Value = { List T };

    ghost view = { λ s. rc_slice_items s.items };
}

impl<T: Copy> SharedItems<T> {
    /// The items of this vector, in its order, without the room that it has for more. NoMemory may come at
    /// any time, also if the heap doesn't take that room back.
    pub fn of(mut items: Vec<T>) -> Result<SharedItems<T>, NoMemory>
        ensures { IfOk result (λ shared. shared ≡ items.items) }
    {
        items.shrink_to_fit();
        if items.len() < items.capacity() {
            return Err(NoMemory);
        }
        let items = RcSlice::from_vec(items)?;
        Ok(SharedItems { items })
    }

    /// The same items, shared. None where they have so many owners that no more can be counted.
    pub fn share(&self) -> Option<SharedItems<T>>
        ensures { IfSome result (λ shared. shared ≡ self.now) }
    {
        match self.items.clone() {
            Ok(items) => Some(SharedItems { items }),
            Err(_) => None,
        }
    }

    /// The items to read, in order. Takes no memory.
    pub fn as_slice(&self) -> &[T]
        ensures { result.now ≡ self.now }
    {
        self.items.as_slice()
    }
}
