// The line of a fault, without its line break.
ghost use Rattle.std.specs.Prelude.{Some};
ghost use Rattle.lines.specs.Lines.{fault_line, layer_name};

use monthfile::{Layer, Told};
use std::fmt;

// The name of a layer.
#[derive(Clone, Copy)]
struct LayerName(Layer);

impl fmt::Display for LayerName {
    ghost output = { λ l. Some (layer_name l.0) };

    fn fmt<W: fmt::Write>(&self, f: &mut fmt::Formatter<W>) -> fmt::Result {
        match self.0 {
            Layer::File => write!(f, "FILE"),
            Layer::Plan => write!(f, "PLAN"),
            Layer::Book => write!(f, "BOOK"),
        }
    }
}

#[derive(Clone, Copy)]
pub struct FaultLine(pub Told);

impl fmt::Display for FaultLine {
    ghost output = { λ l. Some (fault_line l.0) };

    fn fmt<W: fmt::Write>(&self, f: &mut fmt::Formatter<W>) -> fmt::Result {
        let Told {
            layer,
            number,
            place,
        } = self.0;
        let name = LayerName(layer);
        write!(f, "FAULT {name} {number} {place}")
    }
}
