// Replies, what requests pose, and sessions. The functions do nothing: their contracts are the laws.
ghost use Rattle.ecr_examples.specs.Sessions.{BodiesAreRendered, CommandsEnd, RequestsArePosed, SessionsAreWritten};

/// The bodies of replies.
pub fn bodies_are_rendered()
    ensures rendered { BodiesAreRendered }
{}

/// What requests pose, and their replies.
pub fn requests_are_posed()
    ensures posed { RequestsArePosed }
{}

/// What sessions write.
pub fn sessions_are_written()
    ensures written { SessionsAreWritten }
{}

/// The words of commands, and their exit statuses.
pub fn commands_end()
    ensures end { CommandsEnd }
{}
