// The sites that hosts name, and replies as bytes. The functions do nothing: their contracts are the laws.
ghost use Rattle.ecr_examples.specs.Replies.{HostsNameSites, RepliesAreThese};

/// The site that a request is for, by its Host.
pub fn hosts_name_sites()
    ensures named { HostsNameSites }
{}

/// The heads of replies, and replies without a body of their own.
pub fn replies_are_these()
    ensures these { RepliesAreThese }
{}
