// Laws of the response-time analysis: arrival count, response bound, verdict and choice. This crate has no code.
#![tactic(auto)]
