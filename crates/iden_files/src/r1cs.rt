use gold_field::Constraint;
use items::Items;
use std::marker::Model;

/// What an `.r1cs` file means. Wire 0 stands for the number 1; then come the outputs, the public
/// inputs, the private inputs and all others. Each wire has a label, and each signal of a
/// constraint is a wire.
pub struct R1cs {
    pub wires: u32,
    pub outputs: u32,
    pub public_inputs: u32,
    pub private_inputs: u32,
    /// The number of labels that the file's maker gave; nothing else depends on it.
    pub label_count: u64,
    pub labels: Items<u64>,
    pub constraints: Items<Constraint>,
}

// Written out, so that the proof of an owner sees one call and not the drop of each part.
impl Drop for R1cs {
    fn drop(self) {
        let R1cs {
            wires: _wires,
            outputs: _outputs,
            public_inputs: _public_inputs,
            private_inputs: _private_inputs,
            label_count: _label_count,
            labels: _labels,
            constraints: _constraints,
        } = self;
    }
}

impl Model for R1cs {
    ghost use Rattle.iden_files.specs.File.{File, IsFile};

    ghost Value = { File };

    ghost view = { λ r. record {
      wires = r.wires;
      outputs = r.outputs;
      public_inputs = r.public_inputs;
      private_inputs = r.private_inputs;
      label_count = r.label_count;
      labels = r.labels;
      constraints = r.constraints;
    } };

    ghost invariant = { λ r. IsFile
        (record {
          wires = r.wires;
          outputs = r.outputs;
          public_inputs = r.public_inputs;
          private_inputs = r.private_inputs;
          label_count = r.label_count;
          labels = r.labels;
          constraints = r.constraints;
        }) };
}

impl R1cs {
    ghost use Rattle.std.specs.Prelude.{◌≡◌};
    ghost use Rattle.iden_files.specs.File.{IsFile};

    /// The constraints, in the order in which section 2 of the file lists them.
    pub fn constraints(&self) -> &[Constraint]
        ensures constraints { result.now ≡ self.now.constraints }
        ensures file { IsFile self.now }
    {
        self.constraints.as_slice()
    }
}
