// No code: what is promised of the services is proved from their contracts alone.
#![tactic(auto)]
