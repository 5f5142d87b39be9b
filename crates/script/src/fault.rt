// A refusal: which question said no, where, and the layer that the question belongs to.
ghost use Rattle.std.specs.Prelude.{◌≡◌};
ghost use Rattle.script.specs.Faults.{fault, layer_of};

use std::error::Error;
use std::fmt;

#[derive(Clone, Copy, PartialEq, Eq, Debug)]
pub enum Layer {
    Text,
    Names,
    Regions,
    Run,
    Memory,
    Table,
    Host,
}

// The number and not a `Refusal`: it is what a caller is promised, and `new` takes any number.
#[derive(Clone, Copy, PartialEq, Eq, Debug)]
pub struct Fault {
    pub number: u8,
    pub place: usize,
    pub layer: Layer,
}

// Which layer the question of a number belongs to. It answers for any number, and so takes no `Refusal`.
pub fn layer_of(number: u8) -> Layer
    ensures { result ≡ layer_of number }
{
    match number {
        0..=6 => Layer::Text,
        7..=12 => Layer::Names,
        13..=15 => Layer::Regions,
        16..=25 => Layer::Run,
        26..=29 => Layer::Memory,
        30..=33 => Layer::Table,
        _ => Layer::Host,
    }
}

impl Fault {
    pub fn new(number: u8, place: usize) -> Fault
        ensures { result ≡ fault number place }
    {
        Fault {
            number,
            place,
            layer: layer_of(number),
        }
    }
}

impl fmt::Display for Layer {
    fn fmt<W: fmt::Write>(&self, f: &mut fmt::Formatter<W>) -> fmt::Result {
        f.write_str(match self {
            Layer::Text => "text",
            Layer::Names => "names",
            Layer::Regions => "regions",
            Layer::Run => "run",
            Layer::Memory => "memory",
            Layer::Table => "table",
            Layer::Host => "host",
        })
    }
}

impl fmt::Display for Fault {
    fn fmt<W: fmt::Write>(&self, f: &mut fmt::Formatter<W>) -> fmt::Result {
        write!(
            f,
            "refused by {} ({}) at {}",
            self.number, self.layer, self.place
        )
    }
}

impl Error for Fault {}
