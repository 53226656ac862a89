// The names that the repository itself gives a meaning.
ghost use Rattle.std.specs.Prelude.{◌≡◌, IfOk};
ghost use Rattle.jr_items.specs.Items.{same_name};
ghost use Rattle.jr_items.specs.Own.{own_name};

use jr_path::Name;
use std::alloc::{AllocError, Global};

/// A name that the repository itself gives a meaning: of a property, of a node or of a node type.
#[derive(Clone, Copy, PartialEq, Eq)]
pub enum OwnName {
    PrimaryType,
    MixinTypes,
    ChildOrder,
    Uuid,
    LockOwner,
    LockIsDeep,
    IsCheckedOut,
    VersionHistory,
    BaseVersion,
    Predecessors,
    Successors,
    VersionableUuid,
    Created,
    CreatedBy,
    LastModified,
    LastModifiedBy,
    FrozenNode,
    FrozenPrimaryType,
    FrozenMixinTypes,
    FrozenUuid,
    RootVersion,
    VersionLabels,
    System,
    VersionStorage,
    Lockable,
    Versionable,
    Referenceable,
    BaseType,
    Unstructured,
    FrozenType,
    VersionType,
    HistoryType,
    LabelsType,
}

impl OwnName {
    /// Its text.
    pub fn as_str(self) -> &'static str
        ensures { result.now ≡ own_name self }
    {
        match self {
            OwnName::PrimaryType => "jcr:primaryType",
            OwnName::MixinTypes => "jcr:mixinTypes",
            OwnName::ChildOrder => "rep:childOrder",
            OwnName::Uuid => "jcr:uuid",
            OwnName::LockOwner => "jcr:lockOwner",
            OwnName::LockIsDeep => "jcr:lockIsDeep",
            OwnName::IsCheckedOut => "jcr:isCheckedOut",
            OwnName::VersionHistory => "jcr:versionHistory",
            OwnName::BaseVersion => "jcr:baseVersion",
            OwnName::Predecessors => "jcr:predecessors",
            OwnName::Successors => "jcr:successors",
            OwnName::VersionableUuid => "jcr:versionableUuid",
            OwnName::Created => "jcr:created",
            OwnName::CreatedBy => "jcr:createdBy",
            OwnName::LastModified => "jcr:lastModified",
            OwnName::LastModifiedBy => "jcr:lastModifiedBy",
            OwnName::FrozenNode => "jcr:frozenNode",
            OwnName::FrozenPrimaryType => "jcr:frozenPrimaryType",
            OwnName::FrozenMixinTypes => "jcr:frozenMixinTypes",
            OwnName::FrozenUuid => "jcr:frozenUuid",
            OwnName::RootVersion => "jcr:rootVersion",
            OwnName::VersionLabels => "jcr:versionLabels",
            OwnName::System => "jcr:system",
            OwnName::VersionStorage => "jcr:versionStorage",
            OwnName::Lockable => "mix:lockable",
            OwnName::Versionable => "mix:versionable",
            OwnName::Referenceable => "mix:referenceable",
            OwnName::BaseType => "nt:base",
            OwnName::Unstructured => "nt:unstructured",
            OwnName::FrozenType => "nt:frozenNode",
            OwnName::VersionType => "nt:version",
            OwnName::HistoryType => "nt:versionHistory",
            OwnName::LabelsType => "nt:versionLabels",
        }
    }

    /// A name with its text.
    pub fn name(self, alloc: Global) -> Result<Name, AllocError>
        ensures { IfOk result (λ name. name ≡ own_name self) }
    {
        Name::of(alloc, self.as_str())
    }

    /// Whether this is the name.
    pub fn is(self, name: &Name) -> bool
        ensures { result ≡ same_name (own_name self) name.now }
    {
        self.as_str().cmp(name.as_str()).is_eq()
    }
}
