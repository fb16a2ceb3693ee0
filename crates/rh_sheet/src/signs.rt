//! What the figures of a sheet are painted with.

/// Patterns of the pool's squares, of words and of holes, on paper the stripes of holes, the heads of three kinds of
/// arrow, and what ends an arrow whose message is held, or vanished.
pub const SIGNS: &[u8] = b"\
<pattern id=\"cells\" x=\"150\" width=\"32\" height=\"32\" patternUnits=\"userSpaceOnUse\">
<path d=\"M32 0H0V32\"/>
</pattern>
<pattern id=\"words\" width=\"4\" height=\"8\" patternUnits=\"userSpaceOnUse\">
<path d=\"M1.5 0V8\"/>
</pattern>
<pattern id=\"stripes\" width=\"9\" height=\"9\" patternUnits=\"userSpaceOnUse\">
<path d=\"M0 9L9 0M-2 2L2 -2M7 11L11 7\"/>
</pattern>
<linearGradient id=\"slant\" gradientUnits=\"userSpaceOnUse\" x2=\"4.5\" y2=\"4.5\" spreadMethod=\"repeat\">
<stop offset=\"0.78\"/>
<stop offset=\"0.78\"/>
</linearGradient>
<marker id=\"tip\" viewBox=\"0 0 8 8\" refX=\"7\" refY=\"4\" markerWidth=\"7\" markerHeight=\"7\" orient=\"auto\">
<path d=\"M0 1L8 4L0 7z\"/>
</marker>
<marker id=\"point\" viewBox=\"0 0 8 8\" refX=\"7\" refY=\"4\" markerWidth=\"5\" markerHeight=\"5\" orient=\"auto\">
<path d=\"M0 0L8 4L0 8z\"/>
</marker>
<marker id=\"lead\" viewBox=\"0 0 8 8\" refX=\"7\" refY=\"4\" markerWidth=\"5\" markerHeight=\"5\" orient=\"auto\">
<path d=\"M0 0L8 4L0 8z\"/>
</marker>
<marker id=\"ring\" viewBox=\"0 0 12 12\" refX=\"6\" refY=\"6\" \
markerWidth=\"12\" markerHeight=\"12\" markerUnits=\"userSpaceOnUse\">
<path d=\"M6 1.5a4.5 4.5 0 1 0 0.01 0z\"/>
</marker>
<marker id=\"cross\" viewBox=\"0 0 12 12\" refX=\"6\" refY=\"6\" \
markerWidth=\"12\" markerHeight=\"12\" markerUnits=\"userSpaceOnUse\">
<path d=\"M1 1L11 11M11 1L1 11\"/>
</marker>
";
