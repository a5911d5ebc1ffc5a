// What the definitions of bodies and replies come to, at examples. The functions do nothing: their contracts are the
// laws.
ghost use Rattle.ecr_model.specs.examples.ApiExample.{BodiesAreRead, RepliesAreWritten};

/// The bodies that are written out in `specs/examples/ApiExample.antt` are read as it says there.
pub fn bodies_are_read()
    ensures read { BodiesAreRead }
{}

/// The replies that are written out there have those bytes.
pub fn replies_are_written()
    ensures written { RepliesAreWritten }
{}
