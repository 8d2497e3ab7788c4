// What holds of every run that serves a job.
ghost use Rattle.dm_serving.specs.Laws.{FewAreAccepted, AllAreAccepted, OnceListens};

/// Law: a run asks for no more connections than its words say, for exactly as many where it ends by `Done`, and it
/// listens at most once.
pub fn few_are_accepted()
    ensures most { FewAreAccepted }
    ensures all { AllAreAccepted }
    ensures once { OnceListens }
{}
