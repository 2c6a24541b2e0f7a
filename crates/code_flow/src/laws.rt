// What is proved, by calls with empty bodies.
ghost use Rattle.code_flow.specs.Sizes.{CertificatesAreFew};

/// An accepted certificate has few potentials, and few parts of a flow.
pub fn certificates_are_few()
    ensures { CertificatesAreFew }
{}
