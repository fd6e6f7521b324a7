//! Objects in little room.
ghost use Rattle.std.specs.Prelude.{◌≡◌, IfOk};

use crate::joined::Joined;
use crate::sink::Sink;
use crate::source::Source;
use go_code::object::Object;
use go_const::constant::Text;
use std::alloc::{AllocError, Global};
use std::marker::Model;

/// A package's object in little room: to be kept, and unpacked where it is linked. It shares the
/// object's texts.
#[derive(Drop)]
pub struct Packed {
    bytes: Vec<u8>,
    shorts: Vec<u16>,
    sizes: Vec<usize>,
    integers: Vec<i128>,
    texts: Vec<Text>,
    names: Joined,
}

impl Model for Packed {
    ghost use Rattle.go_code.specs.Packages as packages;
    ghost use Rattle.go_packed.specs.Tokens.{tokens};
    ghost use Rattle.go_packed.specs.Reading.{unpacked_object};

    ghost Value = { packages.Object };

    ghost view = { λ a. unpacked_object (tokens a.names (record { shorts = a.shorts.items; sizes = a.sizes.items; integers = a.integers.items; texts = a.texts.items }) a.bytes.items) };
}

impl Packed {
    /// An object, packed. An `Err` only where memory ran out.
    pub fn of(alloc: Global, object: &Object) -> Result<Packed, AllocError>
        ensures { IfOk result (λ packed. packed ≡ object.now) }
    {
        let mut sink = Sink::new(alloc);
        sink.put_object(object)?;
        let names = Joined::of(alloc, sink.names.all())?;
        let Sink {
            mut bytes,
            mut shorts,
            mut sizes,
            mut integers,
            mut texts,
            ..
        } = sink;
        bytes.shrink_to_fit();
        shorts.shrink_to_fit();
        sizes.shrink_to_fit();
        integers.shrink_to_fit();
        texts.shrink_to_fit();
        Ok(Packed {
            bytes,
            shorts,
            sizes,
            integers,
            texts,
            names,
        })
    }

    /// The object. An `Err` only where memory ran out.
    pub fn unpack(&self, alloc: Global) -> Result<Object, AllocError>
        ensures { IfOk result (λ object. object ≡ self.now) }
    {
        let names = self.names.names(alloc)?;
        let mut source = Source {
            bytes: self.bytes.as_slice(),
            shorts: self.shorts.as_slice(),
            sizes: self.sizes.as_slice(),
            integers: self.integers.as_slice(),
            texts: self.texts.as_slice(),
            names: names.as_slice(),
        };
        source.object(alloc)
    }
}
