// The laws of the sessions of one caller among many. The functions do nothing: their contracts are the laws.
ghost use Rattle.ecr_model.specs.laws.CallerLaws.{EntriesStay, OutputIsDecided, OutputIsStill, PlacesRise, TicketsRise, TurnsStay};
ghost use Rattle.ecr_model.specs.requests.Requests.{Decided};

/// The turns of a request, whole or the first of them, are turns over all journals that the caller sees later: at the
/// same places, with the same entries.
pub fn turns_stay()
    ensures stay { TurnsStay Decided }
    ensures entries { EntriesStay Decided }
{}

/// The tickets of a caller among many are drawn while its request is answered, and rise in each cell; so do those of a
/// session.
pub fn tickets_rise()
    ensures of_a_request { TicketsRise Decided }
    ensures of_a_session { PlacesRise }
{}

/// The bytes that a session among others reads, its account and the journals that its caller has seen at last decide
/// the requests, how the bytes go on, and all that is written.
pub fn output_is_decided()
    ensures decided { OutputIsDecided }
{}

/// Where nobody else changes the journals meanwhile, a session among others writes what one of a caller that is alone
/// does.
pub fn output_is_still()
    ensures still { OutputIsStill }
{}
