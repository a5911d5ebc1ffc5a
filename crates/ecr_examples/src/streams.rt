// Chunked bodies, and requests in a stream. The functions do nothing: their contracts are the laws.
ghost use Rattle.ecr_examples.specs.Streams.{ChunksAreCut, StreamsAreCut};

/// The parts of bodies that come in chunks.
pub fn chunks_are_cut()
    ensures cut { ChunksAreCut }
{}

/// The requests of a stream, and how it ends.
pub fn streams_are_cut()
    ensures cut { StreamsAreCut }
{}
