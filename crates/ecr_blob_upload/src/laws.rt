// What holds of all content. The functions do nothing: their contracts are the laws.
ghost use Rattle.std.specs.Prelude.{ℕ, List};
ghost use Rattle.std.specs.Thread.{IsSend, IsSync};
ghost use Rattle.ecr_model.specs.registry.Content.{content_digest};
ghost use Rattle.ecr_model.specs.names.Digests.{IsDigest};
ghost use Rattle.ecr_blob_upload.specs.contracts.blob.Blob.{the_row as blob};
ghost use Rattle.ecr_blob_upload.specs.contracts.bytes.Bytes.{the_row as bytes};
ghost use Rattle.ecr_blob_upload.specs.contracts.call.Load.{the_row as load};
ghost use Rattle.ecr_blob_upload.specs.contracts.call.Outcome.{the_row as outcome};

/// The digest of content has 32 bytes.
pub fn content_has_a_digest()
    ensures digest { (content : List ℕ) → IsDigest (content_digest content) }
{}

/// Blobs and bytes may be sent to other threads and shared with them.
pub fn content_crosses_threads()
    ensures blobs_sent { IsSend blob }
    ensures blobs_shared { IsSync blob }
    ensures bytes_sent { IsSend bytes }
    ensures bytes_shared { IsSync bytes }
{}

/// What a call brings and comes to may be sent to other threads.
pub fn calls_cross_threads()
    ensures loads { IsSend load }
    ensures outcomes { IsSend outcome }
{}
