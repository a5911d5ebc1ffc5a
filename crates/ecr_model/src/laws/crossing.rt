// Which values cross threads. The function does nothing: its contract is the law.
ghost use Rattle.std.specs.Thread.{IsSend};
ghost use Rattle.ecr_model.specs.contracts.registry.directory.Registered.{the_row as registered};
ghost use Rattle.ecr_model.specs.contracts.registry.journal.Line.{the_row as line};
ghost use Rattle.ecr_model.specs.contracts.registry.journal.Place.{the_row as place};
ghost use Rattle.ecr_model.specs.contracts.requests.reply.Reply.{the_row as reply};
ghost use Rattle.ecr_model.specs.contracts.requests.reply.SiteReply.{the_row as site_reply};

/// Lines of journals, places and replies may be sent to other threads.
pub fn answers_cross_threads()
    ensures lines { IsSend line }
    ensures places { IsSend place }
    ensures replies { IsSend reply }
    ensures site_replies { IsSend site_reply }
    ensures registrations { IsSend registered }
{}
