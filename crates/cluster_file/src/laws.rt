ghost use Rattle.cluster_file.specs.Clusters.{EachIsRead, EachIsReadOnce};
ghost use Rattle.cluster_file.specs.Laws.{DescribedIsLawful};

/// A law: all bytes describe a cluster or have a refusal.
pub fn described_or_refused()
    ensures { EachIsRead }
{}

/// A law: no bytes describe two clusters, have two refusals, or describe a cluster and have a refusal.
pub fn refused_once()
    ensures { EachIsReadOnce }
{}

/// A law: each cluster that bytes describe is lawful: it keeps the format's limits and rules.
pub fn described_is_lawful()
    ensures { DescribedIsLawful }
{}
