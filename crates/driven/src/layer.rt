// Layers in words.
use calls::fault::Layer;
use std::fmt;

// A layer by its name.
#[derive(Clone, Copy)]
pub struct LayerName(pub Layer);

impl fmt::Display for LayerName {
    // The name.
    fn fmt<W: fmt::Write>(&self, f: &mut fmt::Formatter<W>) -> fmt::Result {
        f.write_str(match self.0 {
            Layer::Wire => "wire",
            Layer::Presence => "presence",
            Layer::Policy => "policy",
            Layer::Document => "document",
            Layer::Buffer => "buffer",
        })
    }
}
