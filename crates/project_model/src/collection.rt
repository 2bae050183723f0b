ghost use Rattle.std.specs.Prelude.{◌≡◌};

use std::marker::Model;

/// A `Vec` that contracts see as the list of its elements, so that projects are compared by what they say.
#[derive(Debug, Drop)]
pub struct Collection<T> {
    elements: Vec<T>,
}

impl<T> Model for Collection<T> {
    ghost use Rattle.std.specs.Prelude.{List};
    ghost use Rattle.std.specs.Coded.{coded_list};

    ghost Value = { List T };

    ghost coded = { coded_list T.code };

    ghost view = { λ c. c.elements.items };
}

impl<T> Collection<T> {
    /// The elements of a `Vec`. It takes no memory.
    pub fn from_vec(elements: Vec<T>) -> Collection<T>
        ensures { result ≡ elements.items }
    {
        Collection { elements }
    }

    /// The `Vec` of the elements. It takes no memory.
    pub fn into_vec(self) -> Vec<T>
        ensures { result.items ≡ self }
    {
        let Collection { elements } = self;
        elements
    }

    /// The elements in order.
    pub fn as_slice(&self) -> &[T]
        ensures { result.now ≡ self.now }
    {
        self.elements.as_slice()
    }
}
