// The heads of requests. The functions do nothing: their contracts are the laws.
ghost use Rattle.ecr_examples.specs.Heads.{BodiesAreDelimited, ClientsWait, FieldsAreFound, HeadsEnd, SessionsClose};

/// Field lines, and the fields of a name.
pub fn fields_are_found()
    ensures found { FieldsAreFound }
{}

/// Where heads end, and the paths of targets.
pub fn heads_end()
    ensures end { HeadsEnd }
{}

/// How bodies are delimited.
pub fn bodies_are_delimited()
    ensures delimited { BodiesAreDelimited }
{}

/// Which clients wait for a 100.
pub fn clients_wait()
    ensures wait { ClientsWait }
{}

/// After which requests a session closes.
pub fn sessions_close()
    ensures close { SessionsClose }
{}
