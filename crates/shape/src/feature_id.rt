// The ids of vertices, edges and faces: a code below 2^30 under a header of two bits.
ghost use Rattle.std.specs.Prelude.{◌≡◌, ◌*◌, ◌^◌, ◌<◌};
ghost use Rattle.math.specs.Refusals.{told};
ghost use Rattle.shape.specs.Ids.{vertex_header, edge_header, face_header, header, packed, four_codes, packing, has_header, feature_of, kind_of, unpacked, UnpacksTo, OnlyFrom, PacksBack, is_nothing};

use math::refusal::Refusal;

#[derive(Clone, Copy, Debug, PartialEq, Eq)]
pub enum FeatureKind {
    Vertex,
    Edge,
    Face,
}

// The cases are those of the Rust crate that is ported.
#[derive(Clone, Copy, Debug, PartialEq, Eq)]
pub enum FeatureId {
    Vertex(u32),
    Edge(u32),
    Face(u32),
    Unknown,
}

#[derive(Clone, Copy, Debug, PartialEq, Eq)]
pub struct PackedFeatureId(pub u32);

const CODE_LIMIT: u32 = 0x4000_0000;

const CODE_MASK: u32 = 0x3fff_ffff;

const CODE_BITS: u32 = 30;

impl FeatureKind {
    // The bits that stand above the code.
    fn header_bits(self) -> u32
        ensures { result ≡ header self * 2 ^ 30 }
    {
        match self {
            FeatureKind::Vertex => 0x4000_0000,
            FeatureKind::Edge => 0x8000_0000,
            FeatureKind::Face => 0xc000_0000,
        }
    }
}

// `vertex`, `edge`, `face`, `unpack` and the tests are named as in the Rust crate that is ported.
impl PackedFeatureId {
    // The id of nothing.
    pub const UNKNOWN: PackedFeatureId = PackedFeatureId(0);

    #[tactic(auto, using(crate::proofs::Ids::unpacks, crate::proofs::Ids::only_from))]
    pub fn pack(kind: FeatureKind, code: u32) -> Result<PackedFeatureId, Refusal>
        ensures value { told result ≡ packing (header kind) code }
        ensures back { UnpacksTo (told result) (feature_of kind code) }
        ensures only { OnlyFrom (told result) (header kind) code }
    {
        if code >= CODE_LIMIT {
            return Err(Refusal::CodeTooLarge);
        }
        Ok(PackedFeatureId::under_header(kind, code))
    }

    pub fn vertex(code: u32) -> Result<PackedFeatureId, Refusal>
        ensures value { told result ≡ packing vertex_header code }
        ensures back { UnpacksTo (told result) (FeatureId.Vertex code) }
        ensures only { OnlyFrom (told result) vertex_header code }
    {
        PackedFeatureId::pack(FeatureKind::Vertex, code)
    }

    pub fn edge(code: u32) -> Result<PackedFeatureId, Refusal>
        ensures value { told result ≡ packing edge_header code }
        ensures back { UnpacksTo (told result) (FeatureId.Edge code) }
        ensures only { OnlyFrom (told result) edge_header code }
    {
        PackedFeatureId::pack(FeatureKind::Edge, code)
    }

    pub fn face(code: u32) -> Result<PackedFeatureId, Refusal>
        ensures value { told result ≡ packing face_header code }
        ensures back { UnpacksTo (told result) (FeatureId.Face code) }
        ensures only { OnlyFrom (told result) face_header code }
    {
        PackedFeatureId::pack(FeatureKind::Face, code)
    }

    #[tactic(auto, using(crate::proofs::Ids::under_header))]
    fn under_header(kind: FeatureKind, code: u32) -> PackedFeatureId
        requires { code < 2 ^ 30 }
        ensures { result ≡ packed (header kind) code }
    {
        PackedFeatureId(kind.header_bits() | code)
    }

    // A code of eight bits is never too large.
    pub(crate) fn small(kind: FeatureKind, code: u8) -> PackedFeatureId
        ensures { result ≡ packed (header kind) code }
    {
        PackedFeatureId::under_header(kind, u32::from(code))
    }

    pub(crate) fn small_ids(kind: FeatureKind, codes: [u8; 4]) -> [PackedFeatureId; 4]
        ensures { result ≡ four_codes (header kind) codes }
    {
        codes.map(|code| PackedFeatureId::small(kind, code))
    }

    // An id under the header 00 names nothing, whatever its code.
    #[tactic(auto, using(crate::proofs::Ids::packs_masked, crate::proofs::Ids::no_header), unfolding(crate::specs::Ids::unpacked))]
    pub fn unpack(self) -> FeatureId
        ensures value { result ≡ unpacked self }
        ensures back { PacksBack self result }
    {
        let code = self.0 & CODE_MASK;
        match self.kind() {
            Some(FeatureKind::Vertex) => FeatureId::Vertex(code),
            Some(FeatureKind::Edge) => FeatureId::Edge(code),
            Some(FeatureKind::Face) => FeatureId::Face(code),
            None => FeatureId::Unknown,
        }
    }

    // None under the header 00.
    pub fn kind(self) -> Option<FeatureKind>
        ensures { result ≡ kind_of self }
    {
        match self.0 >> CODE_BITS {
            0b01 => Some(FeatureKind::Vertex),
            0b10 => Some(FeatureKind::Edge),
            0b11 => Some(FeatureKind::Face),
            _ => None,
        }
    }

    #[tactic(auto, using(crate::proofs::Ids::is_kind))]
    pub fn is_face(self) -> bool
        ensures { result ≡ has_header face_header self }
    {
        self.kind() == Some(FeatureKind::Face)
    }

    #[tactic(auto, using(crate::proofs::Ids::is_kind))]
    pub fn is_vertex(self) -> bool
        ensures { result ≡ has_header vertex_header self }
    {
        self.kind() == Some(FeatureKind::Vertex)
    }

    #[tactic(auto, using(crate::proofs::Ids::is_kind))]
    pub fn is_edge(self) -> bool
        ensures { result ≡ has_header edge_header self }
    {
        self.kind() == Some(FeatureKind::Edge)
    }

    pub fn is_unknown(self) -> bool
        ensures { result ≡ is_nothing self }
    {
        self == PackedFeatureId::UNKNOWN
    }
}
